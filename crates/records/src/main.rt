// Reads an expression line, then judges one record per line (01, "Two programs").

#![tactic(auto)]

mod answers;

ghost use Rattle.std.specs.Prelude.{◌≡◌, []};
ghost use Rattle.theory.specs.Limit.{longest_text};
ghost use Rattle.columns.specs.Arcs.{lent_arcs, SameArcs};
ghost use Rattle.lines.specs.Input.{line_bytes, Whole};
ghost use Rattle.matcher.specs.Automaton.{handed_over};
ghost use Rattle.site.specs.Site.{shown, InRooms};
ghost use Rattle.site.specs.Sited.{Sited};
ghost use Rattle.records.specs.Start.{Starts};

use columns::arcs::ArcsMut;
use columns::work::Work;
use lines::failure::Failure;
use lines::input::{Input, Line};
use lines::output::{LINE, Output};
use matcher::automaton::Automaton;
use site::Site;
use std::io::Read;
use theory::limit;

// 01, refusal 16: "record line over 4,096 bytes".
const RECORD: usize = 4096;

// A bit for each state that the site has room for.
const WORDS: usize = site::STATES / 64;

const TAKEN: usize = 65536;

const ANSWERS: usize = 4096;

// The records that are still to come. A proved loop has to end, and nothing says that the input does: the turns are more than a run has.
fn judge<R: Read>(
    input: &mut Input<R, TAKEN>,
    text: &[u8],
    automaton: Automaton<'_>,
) -> Result<(), Failure>
    requires sited { Sited text.now (handed_over automaton) }
{
    // A byte more than a record may have: a longer line fills the column.
    let mut column = [0u8; RECORD + 1];
    let mut current = [0u64; WORDS];
    let mut next = [0u64; WORDS];
    let mut work = Work {
        current: &mut current,
        next: &mut next,
    };
    let mut output = Output::<ANSWERS>::new();
    for _ in 0..u64::MAX {
        let answered = answers::answer_next(
            input,
            text,
            &mut column,
            automaton,
            &mut work,
            &mut output,
        )?;
        if answered.is_none() {
            return Ok(());
        }
    }
    Ok(())
}

// From the expression line to the automaton, or to the refusal's line. Not inline: so the loops over the records come early in the function that has them,
// and the compiler aligns them.
#[inline(never)]
fn automaton_of(
    line: Option<Line>,
    column: &[u8],
    accepting: &mut [u8],
    arcs: &mut ArcsMut<'_>,
    output: &mut Output<LINE>,
) -> Option<Site>
    requires whole { Whole longest_text line column.now }
    requires empty { output.old ≡ [] }
    requires in_rooms { InRooms (shown accepting.old (lent_arcs arcs.old)) }
    ensures same { SameArcs arcs.old arcs.new }
    ensures starts { Starts (line_bytes line column.now) (shown accepting.old (lent_arcs arcs.old)) result
        (shown accepting.new (lent_arcs arcs.new)) output.new }
{
    let text = lines::input::bytes(line, column);
    match site::automaton(text, accepting, arcs) {
        Ok(site) => Some(site),
        Err(refusal) => {
            output.refused(refusal);
            None
        }
    }
}

// 01: "the records program stops there if the expression was refused".
fn run<R: Read>(input: &mut Input<R, TAKEN>) -> Result<(), Failure> {
    // A byte more than a text may have: of a longer line the reader sees that it is longer.
    let mut column = [0u8; limit::TEXT + 1];
    let line = input.take_line(&mut column)?;
    let mut accepting = [0u8; site::STATES];
    let mut from = [0u16; site::ARCS];
    let mut letter = [0u8; site::ARCS];
    let mut to = [0u16; site::ARCS];
    let mut arcs = ArcsMut {
        from: &mut from,
        letter: &mut letter,
        to: &mut to,
    };
    let mut output = Output::<LINE>::new();
    let Some(site) = automaton_of(line, &column, &mut accepting, &mut arcs, &mut output) else {
        output.write_out()?;
        return Ok(());
    };
    let arcs = arcs.view();
    let automaton = Automaton {
        states: site.states,
        accepting: &accepting,
        arc_count: site.arcs,
        arcs,
    };
    judge(input, lines::input::bytes(line, &column), automaton)
}

fn main(rt: HostRuntime) {
    let mut input = Input::<_, TAKEN>::new(rt.stdin());
    if let Err(failure) = run(&mut input) {
        // Nothing is left to be said where that fails too.
        let _ = failure.tell();
    }
}
