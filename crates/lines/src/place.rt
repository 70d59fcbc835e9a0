// Lines from a lent block. 01: they end at a newline; "A last line without newline counts if it has a byte".

ghost use Rattle.std.specs.Prelude.{◌<◌, ◌≡◌, length};
ghost use Rattle.lines.specs.Input.{Waits};
ghost use Rattle.lines.specs.Place.{Inside, standing, Fills, Nexts, last, Took, TookWhole, Passes};

use crate::failure::Failure;
use crate::input::Line;
use std::io::Read;

// The bytes of a lent block from `at` to `end` are read and not yet taken.
#[derive(Clone, Copy, PartialEq, Eq)]
pub struct Place {
    pub at: usize,
    pub end: usize,
}

impl Place {
    // Nothing is read yet.
    pub fn start() -> Place
        ensures { result ≡ record { at = 0; end = 0 } }
    {
        Place { at: 0, end: 0 }
    }
}

// Whatever a program takes comes by this one call. What it brings is the source's to say.
fn fill<R: Read>(source: &mut R, block: &mut [u8]) -> Result<Option<usize>, Failure>
    ensures { Fills result block.new }
{
    match source.read(block) {
        Ok(0) => Ok(None),
        Ok(end) => Ok(Some(end)),
        Err(_) => Err(Failure::Read),
    }
}

#[inline]
fn take_byte<R: Read>(
    source: &mut R,
    block: &mut [u8],
    place: Place,
) -> Result<Option<(u8, Place)>, Failure>
    requires { Inside place block.old }
    ensures { Nexts block.old place result block.new }
{
    let mut place = place;
    if place.at == place.end {
        let Some(end) = fill(source, block)? else {
            return Ok(None);
        };
        place = Place { at: 0, end };
    }
    let byte = block[place.at];
    place.at += 1;
    Ok(Some((byte, place)))
}

// Whether the next line needs a read: no newline stands among the bytes that are not taken yet.
#[tactic(auto, using(crate::proofs::Waiting::waits_is))]
pub fn waits(block: &[u8], place: Place) -> bool
    requires { Inside place block.now }
    ensures { Waits (standing block.now place) result }
{
    !block[place.at..place.end].contains(&b'\n')
}

// The next line, as far as the column holds it, and the place after it; its newline is taken and not stored.
pub fn take_line<R: Read>(
    source: &mut R,
    block: &mut [u8],
    place: Place,
    column: &mut [u8],
) -> Result<Option<(Line, Place)>, Failure>
    requires { Inside place block.old }
    ensures { Took block.old place result block.new column.new }
{
    let mut place = place;
    for length in 0..column.len() {
        let Some((byte, after)) = take_byte(source, block, place)? else {
            return Ok(last_line(length, place));
        };
        place = after;
        if byte == b'\n' {
            return Ok(Some((Line::Ended { length }, place)));
        }
        column[length] = byte;
    }
    Ok(Some((Line::Full, place)))
}

// 01: "A last line without newline counts if it has a byte".
fn last_line(length: usize, place: Place) -> Option<(Line, Place)>
    ensures { result ≡ last length place }
{
    if length == 0 {
        return None;
    }
    Some((Line::Ended { length }, place))
}

// After the rest of a line. A proved loop has to end, and nothing says that a line does: the turns are more than a run has.
fn rest<R: Read>(source: &mut R, block: &mut [u8], place: Place) -> Result<Place, Failure>
    requires { Inside place block.old }
    ensures { Passes block.old place result block.new }
{
    let mut place = place;
    for _ in 0..u64::MAX {
        let Some((byte, after)) = take_byte(source, block, place)? else {
            return Ok(place);
        };
        place = after;
        if byte == b'\n' {
            return Ok(place);
        }
    }
    Err(Failure::Read)
}

// The next line to its end: of one that fills the column the rest is passed over.
pub fn next_line<R: Read>(
    source: &mut R,
    block: &mut [u8],
    place: Place,
    column: &mut [u8],
) -> Result<Option<(Line, Place)>, Failure>
    requires { Inside place block.old × (0 < length column.old) }
    ensures { TookWhole block.old place result block.new column.new }
{
    match take_line(source, block, place, column)? {
        Some((Line::Full, so_far)) => {
            let after = rest(source, block, so_far)?;
            Ok(Some((Line::Full, after)))
        }
        taken => Ok(taken),
    }
}
