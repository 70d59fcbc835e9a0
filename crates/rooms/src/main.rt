// 2026-01: what each site of a list takes of the programs' rooms, and the totals of the list.

#![tactic(auto)]

mod answers;

ghost use Rattle.std.specs.Prelude.{◌+◌, ◌≤◌, ◌≡◌, [], length};
ghost use Rattle.theory.specs.Limit.{longest_text};
ghost use Rattle.lines.specs.Output.{line_room, WroteOut};
ghost use Rattle.site.specs.Totals.{values};
ghost use Rattle.rooms.specs.Reported.{Ends, Last, Reports, Runs};

use lines::failure::Failure;
use lines::input::Input;
use lines::output::Output;
use site::totals::Totals;
use std::io::Read;
use theory::limit;
use theory::refusal::{Cause, Refusal};

const TAKEN: usize = 65536;

const ANSWERS: usize = 4096;

// 22: "more than 100,000 lines, printed after the first 100,000 in place of the totals".
fn end<R: Read, const SIZE: usize, const ROOM: usize>(
    input: &mut Input<R, SIZE>,
    column: &mut [u8],
    totals: Totals,
    output: &mut Output<ROOM>,
) -> Result<(), Failure>
    requires { (length column.old ≡ longest_text + 1) × (line_room ≤ ROOM) }
    ensures { Ends input.old ROOM (values totals) output.old result input.new output.new }
{
    match lines::turn::ask(input, column, output)? {
        None => answers::totals_line(output, totals),
        Some(_) => output.refused(Refusal {
            cause: Cause::LinesMany,
            place: 0,
        }),
    }
    Ok(())
}

// The report on all lines from here on, up to what is held of it at the end.
fn report<R: Read, const SIZE: usize, const ROOM: usize>(
    input: &mut Input<R, SIZE>,
    column: &mut [u8],
    output: &mut Output<ROOM>,
) -> Result<(), Failure>
    requires { (length column.old ≡ longest_text + 1) × (line_room ≤ ROOM) × (output.old ≡ []) }
    ensures { Reports input.old result output.new }
{
    let mut totals = site::totals::none();
    for _ in 0..limit::LINES {
        let Some(more) = answers::answer_next(input, column, totals, output)? else {
            // Nothing of the answers is held: they were written before the read that found the end.
            answers::totals_line(output, totals);
            return Ok(());
        };
        totals = more;
    }
    end(input, column, totals, output)
}

// What is handed on last ends a report.
fn hand_on<const ROOM: usize>(output: &mut Output<ROOM>) -> Result<usize, Failure>
    requires { Last output.old }
    ensures { WroteOut output.old result output.new }
{
    output.write_out()
}

// The report on all lines, written out whole.
fn run<R: Read, const SIZE: usize, const ROOM: usize>(
    input: &mut Input<R, SIZE>,
    column: &mut [u8],
    output: &mut Output<ROOM>,
) -> Result<usize, Failure>
    requires { (length column.old ≡ longest_text + 1) × (line_room ≤ ROOM) × (output.old ≡ []) }
    ensures { Runs input.old result }
{
    report(input, column, output)?;
    hand_on(output)
}

fn main(rt: HostRuntime) {
    let mut input = Input::<_, TAKEN>::new(rt.stdin());
    // A byte more than a text may have: of a longer line the reader sees that it is longer.
    let mut column = [0u8; limit::TEXT + 1];
    let mut output = Output::<ANSWERS>::new();
    if let Err(failure) = run(&mut input, &mut column, &mut output) {
        // Nothing is left to be said where that fails too.
        let _ = failure.tell();
    }
}
