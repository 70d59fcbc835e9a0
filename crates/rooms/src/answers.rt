// A line as it was taken, its report after what is held, and the totals with it.

ghost use Rattle.std.specs.Prelude.{◌+◌, ◌≤◌, ◌≡◌, ◌++◌, length};
ghost use Rattle.theory.specs.Limit.{longest_text};
ghost use Rattle.theory.specs.Grammar.{Text};
ghost use Rattle.theory.specs.Report.{report};
ghost use Rattle.theory.specs.Lines.{report_line, totals_line};
ghost use Rattle.lines.specs.Output.{line_room};
ghost use Rattle.site.specs.Values.{values as reported};
ghost use Rattle.site.specs.Totals.{values, with_report, Fits, HasEntry};
ghost use Rattle.rooms.specs.Turn.{Answered, Turned};

use columns::arcs::ArcsMut;
use lines::failure::Failure;
use lines::input::Input;
use lines::output::Output;
use site::Site;
use site::totals::Totals;
use std::io::Read;
use theory::refusal::Refusal;

// 2026-01: "per line, single-spaced, entries, letters, states, expressions and arcs, or the refusal".
pub fn line<const ROOM: usize>(output: &mut Output<ROOM>, site: Result<Site, Refusal>)
    requires { HasEntry (reported site) × (length output.old + line_room ≤ ROOM) }
    ensures put { output.new ≡ output.old ++ report_line (reported site) }
    ensures upper_bound { length output.new ≤ length output.old + line_room }
{
    match site {
        Err(refusal) => output.refused(refusal),
        Ok(site) => {
            let before = [
                site.entries as u64,
                site.letters as u64,
                site.states as u64,
                site.expressions as u64,
            ];
            output.row(&before, site.arcs as u64);
        }
    }
}

// "a last line of totals"
pub fn totals_line<const ROOM: usize>(output: &mut Output<ROOM>, totals: Totals)
    requires { length output.old + line_room ≤ ROOM }
    ensures put { output.new ≡ output.old ++ totals_line (values totals) }
    ensures upper_bound { length output.new ≤ length output.old + line_room }
{
    let before = [totals.built, totals.states, totals.powers];
    output.row(&before, totals.few);
}

// What a text comes to, in the programs' rooms.
fn answer<const ROOM: usize>(text: &[u8], totals: Totals, output: &mut Output<ROOM>) -> Totals
    requires { Fits (with_report (values totals) (report text.now)) × (length output.old + line_room ≤ ROOM) }
    ensures { Answered text.now (values totals) output.old result output.new }
{
    let mut accepting = [0u8; site::STATES];
    let mut from = [0u16; site::ARCS];
    let mut letter = [0u8; site::ARCS];
    let mut to = [0u16; site::ARCS];
    let mut arcs = ArcsMut {
        from: &mut from,
        letter: &mut letter,
        to: &mut to,
    };
    let site = site::automaton(text, &mut accepting, &mut arcs);
    line(output, site);
    totals.with(site)
}

// The next line and its report: the totals with it, where there is one.
pub fn answer_next<R: Read, const SIZE: usize, const ROOM: usize>(
    input: &mut Input<R, SIZE>,
    column: &mut [u8],
    totals: Totals,
    output: &mut Output<ROOM>,
) -> Result<Option<Totals>, Failure>
    requires rooms { (length column.old ≡ longest_text + 1) × (line_room ≤ ROOM) }
    requires fits { (t : Text) → Fits (with_report (values totals) (report t)) }
    ensures { Turned input.old ROOM (values totals) output.old result input.new output.new }
{
    let line = lines::turn::ask(input, column, output)?;
    match line {
        None => Ok(None),
        Some(_) => {
            let text = lines::input::bytes(line, column);
            Ok(Some(answer(text, totals, output)))
        }
    }
}
