// Reads one expression line and prints its automaton in the AT&T/OpenFst text format (01, "Two programs").

#![tactic(auto)]

ghost use Rattle.std.specs.Prelude.{◌+◌, ◌*◌, ◌≤◌, ◌<◌, ◌≡◌, ◌++◌, length};
ghost use Rattle.theory.specs.Lines.{arc_line};
ghost use Rattle.theory.specs.Rooms;
ghost use Rattle.theory.specs.Limit.{longest_text};
ghost use Rattle.columns.specs.Arcs.{read_arcs};
ghost use Rattle.lines.specs.Input.{line_bytes, Whole};
ghost use Rattle.lines.specs.Output.{WroteOut};
ghost use Rattle.listing.specs.Listing.{arc_bytes, state_bytes, listing_bytes, Narrow, arc_lines, state_text, state_lines};
ghost use Rattle.listing.specs.Listing.{Lists, Printed, Prints, Answers};

use columns::arcs::{Arcs, ArcsMut};
use lines::failure::Failure;
use lines::input::{Input, Line};
use lines::output::Output;
use std::io::Read;
use theory::limit;

// Any listing of the program's rooms: 12 bytes for an arc, 4 for a state.
const LISTING: usize = site::ARCS * 12 + site::STATES * 4;

// 01: "arcs in table order as `from to label`".
#[tactic(auto, using(crate::proofs::Bytes::short_number))]
fn arc<const ROOM: usize>(output: &mut Output<ROOM>, from: u16, to: u16, letter: u8)
    requires { (length output.old + arc_bytes ≤ ROOM) × (from < Rooms.states) × (to < Rooms.states) }
    ensures put { output.new ≡ output.old ++ arc_line from to letter }
    ensures upper_bound { length output.new ≤ length output.old + arc_bytes }
{
    output.number(from as usize, b' ');
    output.number(to as usize, b' ');
    output.number(letter as usize, b'\n');
}

fn arcs<const ROOM: usize>(output: &mut Output<ROOM>, count: usize, arcs: Arcs<'_>)
    requires arc_bytes_in_bounds { (length output.old + count * arc_bytes ≤ ROOM) × (count ≤ length arcs.from.now)
        × (count ≤ length arcs.letter.now) × (count ≤ length arcs.to.now) }
    requires narrow { Narrow (read_arcs arcs) count }
    ensures put { output.new ≡ output.old ++ arc_lines (read_arcs arcs.entry) count }
    ensures upper_bound { length output.new ≤ length output.old + count * arc_bytes }
{
    for i in 0..count {
        arc(output, arcs.from[i], arcs.to[i], arcs.letter[i]);
    }
}

// 01: "then each accepting state on its own line, ascending".
fn states<const ROOM: usize>(output: &mut Output<ROOM>, count: usize, accepting: &[u8])
    requires { (length output.old + count * state_bytes ≤ ROOM) × (count ≤ length accepting.now) × (count ≤ Rooms.states) }
    ensures put { output.new ≡ output.old ++ state_lines accepting.now count }
    ensures upper_bound { length output.new ≤ length output.old + count * state_bytes }
{
    for i in 0..count {
        state(output, i, accepting[i]);
    }
}

#[tactic(auto, using(crate::proofs::Bytes::short_put, crate::proofs::Listed::of_accepting, crate::proofs::Listed::of_other))]
fn state<const ROOM: usize>(output: &mut Output<ROOM>, state: usize, accepting: u8)
    requires { (length output.old + state_bytes ≤ ROOM) × (state < Rooms.states) }
    ensures put { output.new ≡ output.old ++ state_text accepting state }
    ensures upper_bound { length output.new ≤ length output.old + state_bytes }
{
    if accepting == 1 {
        output.number(state, b'\n');
    }
}

// From the text's bytes to the answer's bytes.
fn list<const ROOM: usize>(text: &[u8], output: &mut Output<ROOM>)
    requires { length output.old + listing_bytes ≤ ROOM }
    ensures { Lists text.now output.old output.new }
{
    let mut accepting = [0u8; site::STATES];
    let mut from = [0u16; site::ARCS];
    let mut letter = [0u8; site::ARCS];
    let mut to = [0u16; site::ARCS];
    let mut columns = ArcsMut {
        from: &mut from,
        letter: &mut letter,
        to: &mut to,
    };
    match site::automaton(text, &mut accepting, &mut columns) {
        Err(refusal) => output.refused(refusal),
        Ok(site) => {
            arcs(output, site.arcs, columns.view());
            states(output, site.states, &accepting);
        }
    }
}

// What is handed on to be written is the answer to the text.
fn hand_on<const ROOM: usize>(text: &[u8], output: &mut Output<ROOM>) -> Result<usize, Failure>
    requires { Printed text.now output.old }
    ensures { WroteOut output.old result output.new }
{
    output.write_out()
}

// The answer to a line as it was taken, written out whole.
fn print(line: Option<Line>, column: &[u8]) -> Result<usize, Failure>
    requires { Whole longest_text line column.now }
    ensures { Prints (line_bytes line column.now) result }
{
    let mut output = Output::<LISTING>::new();
    let text = lines::input::bytes(line, column);
    list(text, &mut output);
    hand_on(text, &mut output)
}

// The next line is taken, and answered.
fn answer<R: Read, const SIZE: usize>(
    input: &mut Input<R, SIZE>,
    column: &mut [u8],
) -> Result<usize, Failure>
    requires { length column.old ≡ longest_text + 1 }
    ensures { Answers input.old result input.new }
{
    let line = input.take_line(column)?;
    print(line, column)
}

fn main(rt: HostRuntime) {
    // One byte at a time. 01: "nothing after it read".
    let mut input = Input::<_, 1>::new(rt.stdin());
    // A byte more than a text may have: of a longer line the reader sees that it is longer.
    let mut column = [0u8; limit::TEXT + 1];
    if let Err(failure) = answer(&mut input, &mut column) {
        // Nothing is left to be said where that fails too.
        let _ = failure.tell();
    }
}
