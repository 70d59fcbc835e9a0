// A line as it was taken, and its answer after what is not written yet.

ghost use Rattle.std.specs.Prelude.{◌+◌, ◌≤◌, ◌≡◌, ◌++◌, Some, length};
ghost use Rattle.theory.specs.Record.{LongEnough};
ghost use Rattle.theory.specs.Lines.{number_and, newline};
ghost use Rattle.columns.specs.Work.{lent_work, SameWork};
ghost use Rattle.lines.specs.Input.{Whole};
ghost use Rattle.lines.specs.Output.{number_room, line_room};
ghost use Rattle.matcher.specs.Automaton.{handed_over};
ghost use Rattle.site.specs.Sited.{Sited};
ghost use Rattle.records.specs.Answer.{longest_record, judgement_line, Answered};
ghost use Rattle.records.specs.Turn.{Turned};

use columns::work::Work;
use lines::failure::Failure;
use lines::input::{Input, Line};
use lines::output::Output;
use matcher::Verdict;
use matcher::automaton::Automaton;
use std::io::Read;
use theory::refusal::{Cause, Refusal};

fn line<const ROOM: usize>(output: &mut Output<ROOM>, word: &[u8], n: usize)
    requires { length output.old + (length word.now + number_room) ≤ ROOM }
    ensures put { output.new ≡ output.old ++ (word.now ++ number_and n newline) }
    ensures upper_bound { length output.new ≤ length output.old + (length word.now + number_room) }
{
    output.word(word);
    output.number(n, b'\n');
}

// 01: "prints per record `accepted L`, `unfinished L` (L is live) or `wrong P`".
fn verdict<const ROOM: usize>(output: &mut Output<ROOM>, verdict: Result<Verdict, Refusal>)
    requires { length output.old + line_room ≤ ROOM }
    ensures put { output.new ≡ output.old ++ judgement_line verdict }
    ensures upper_bound { length output.new ≤ length output.old + line_room }
{
    match verdict {
        Ok(Verdict::Accepted { live }) => line(output, b"accepted ", live),
        Ok(Verdict::Unfinished { live }) => line(output, b"unfinished ", live),
        Ok(Verdict::Wrong { place }) => line(output, b"wrong ", place),
        Err(refusal) => output.refused(refusal),
    }
}

// A line as it was taken, on the automaton of the text.
fn answer<const ROOM: usize>(
    text: &[u8],
    line: Line,
    column: &[u8],
    automaton: Automaton<'_>,
    work: &mut Work<'_>,
    output: &mut Output<ROOM>,
)
    requires sited { Sited text.now (handed_over automaton) }
    requires long_enough { LongEnough (lent_work work.old) automaton.states }
    requires whole { Whole longest_record (Some line) column.now × (length output.old + line_room ≤ ROOM) }
    ensures same { SameWork work.old work.new }
    ensures answered { Answered text.now line column.now output.old output.new }
{
    match line {
        Line::Full => output.refused(Refusal {
            cause: Cause::RecordLong,
            place: 0,
        }),
        Line::Ended { length } => {
            let judged = site::verdict(text, automaton, &column[..length], work);
            verdict(output, judged);
        }
    }
}

// The next line and its answer.
pub fn answer_next<R: Read, const SIZE: usize, const ROOM: usize>(
    input: &mut Input<R, SIZE>,
    text: &[u8],
    column: &mut [u8],
    automaton: Automaton<'_>,
    work: &mut Work<'_>,
    output: &mut Output<ROOM>,
) -> Result<Option<Line>, Failure>
    requires sited { Sited text.now (handed_over automaton) }
    requires long_enough { LongEnough (lent_work work.old) automaton.states }
    requires in_rooms { (length column.old ≡ longest_record + 1) × (line_room ≤ ROOM) }
    ensures same { SameWork work.old work.new }
    ensures turned { Turned text.now input.old ROOM output.old result input.new column.new output.new }
{
    let asked = lines::turn::ask(input, column, output)?;
    match asked {
        None => Ok(None),
        Some(line) => {
            answer(text, line, column, automaton, work, output);
            Ok(Some(line))
        }
    }
}
