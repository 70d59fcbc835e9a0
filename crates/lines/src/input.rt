// Lines of standard input. 01: they end at a newline; "A last line without newline counts if it has a byte".

ghost use Rattle.std.specs.Prelude.{◌<◌, ◌≡◌, Some, length};
ghost use Rattle.lines.specs.Input.{Starts, Waits, Took, TookWhole, Within, line_bytes};
ghost use Rattle.lines.specs.Place.{line_of, place_of};

use crate::failure::Failure;
use crate::place;
use crate::place::Place;
use std::io::Read;
use std::marker::Model;

// The bytes of the block from the place on are read and not yet taken. A block of one byte takes nothing after a newline.
#[derive(Drop)]
pub struct Input<R, const SIZE: usize> {
    source: R,
    block: [u8; SIZE],
    place: Place,
}

impl<R, const SIZE: usize> Model for Input<R, SIZE> {
    ghost use Rattle.std.specs.Prelude.{◌≤◌};
    ghost use Rattle.lines.specs.Input.{Input as Held, input_of};

    ghost Value = { Held };

    ghost view = { λ i. input_of i.block i.place.at i.place.end };

    ghost invariant = { λ i. (i.place.at ≤ i.place.end) × (i.place.end ≤ SIZE) };
}

// A line, as far as a column holds it.
#[derive(Clone, Copy)]
pub enum Line {
    Ended { length: usize },
    // The column is full and no newline has come yet.
    Full,
}

// Without `R: Read`: what makes an input cannot read.
impl<R, const SIZE: usize> Input<R, SIZE> {
    pub fn new(source: R) -> Self
        ensures { Starts result }
    {
        Input {
            source,
            block: [0; SIZE],
            place: Place::start(),
        }
    }
}

impl<R: Read, const SIZE: usize> Input<R, SIZE> {
    // Whether the next line needs a read: no newline stands among the bytes that are not taken yet.
    pub fn waits(&self) -> bool
        ensures { Waits self.now result }
    {
        place::waits(&self.block, self.place)
    }

    // The next line, as far as the column holds it; its newline is taken and not stored.
    pub fn take_line(&mut self, column: &mut [u8]) -> Result<Option<Line>, Failure>
        ensures { Took self.old result self.new column.new }
    {
        let taken = place::take_line(&mut self.source, &mut self.block, self.place, column);
        let (line, place) = apart(taken);
        self.place = place;
        line
    }

    // The next line to its end: of one that fills the column the rest is passed over.
    pub fn next_line(&mut self, column: &mut [u8]) -> Result<Option<Line>, Failure>
        requires { 0 < length column.old }
        ensures { TookWhole self.old result self.new column.new }
    {
        let taken = place::next_line(&mut self.source, &mut self.block, self.place, column);
        let (line, place) = apart(taken);
        self.place = place;
        line
    }
}

// A line and the place after it, apart. Where there is no line, or a read failed, nothing is untaken.
fn apart(taken: Result<Option<(Line, Place)>, Failure>) -> (Result<Option<Line>, Failure>, Place)
    ensures { result ≡ (line_of taken, place_of taken) }
{
    match taken {
        Ok(Some((line, place))) => (Ok(Some(line)), place),
        Ok(None) => (Ok(None), Place::start()),
        Err(failure) => (Err(failure), Place::start()),
    }
}

// The bytes of a line, as far as they were taken.
pub fn bytes(line: Option<Line>, column: &[u8]) -> &[u8]
    requires { Within (length column.now) line }
    ensures { result.now ≡ line_bytes line column.now }
{
    match line {
        None => &column[..0],
        Some(Line::Ended { length }) => &column[..length],
        Some(Line::Full) => column,
    }
}
