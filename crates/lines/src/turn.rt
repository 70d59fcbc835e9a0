// A turn of a program that answers line after line.

ghost use Rattle.std.specs.Prelude.{◌<◌, ◌≤◌, length};
ghost use Rattle.lines.specs.Output.{line_room};
ghost use Rattle.lines.specs.Place.{Inside};
ghost use Rattle.lines.specs.Turn.{Asks};
ghost use Rattle.lines.specs.Lent.{Asks as AsksAt};

use crate::failure::Failure;
use crate::input::{Input, Line};
use crate::output::Output;
use crate::place::Place;
use crate::{block, place};
use std::io::Read;

// The next line. What is answered is written out before a read, and so before the end of the input.
pub fn ask<R: Read, const SIZE: usize, const ROOM: usize>(
    input: &mut Input<R, SIZE>,
    column: &mut [u8],
    output: &mut Output<ROOM>,
) -> Result<Option<Line>, Failure>
    requires { (0 < length column.old) × (line_room ≤ ROOM) }
    ensures { Asks input.old ROOM output.old result input.new column.new output.new }
{
    output.make_room(input.waits())?;
    input.next_line(column)
}

// The same over lent blocks: the next line, or a read that failed, and how much of the block of answers is used still.
pub fn ask_at<R: Read>(
    source: &mut R,
    taken: &mut [u8],
    place: Place,
    column: &mut [u8],
    answers: &[u8],
    used: usize,
) -> Result<(Result<Option<(Line, Place)>, Failure>, usize), Failure>
    requires inside { Inside place taken.old × (0 < length column.old) }
    requires used_in_bounds { (used ≤ length answers.now) × (line_room ≤ length answers.now) }
    ensures { AsksAt taken.old place (length answers.now) used result taken.new column.new }
{
    let waits = place::waits(taken, place);
    let room = block::with_room(answers, used, waits)?;
    Ok((place::next_line(source, taken, place, column), room.used))
}
