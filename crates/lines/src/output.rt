// What a program says, put together in a block, and written out.

ghost use Rattle.std.specs.Prelude.{◌≡◌, ◌+◌, ◌*◌, ◌≤◌, [], ◌++◌, length};
ghost use Rattle.theory.specs.Lines.{number_and, row, refusal_line};
ghost use Rattle.theory.specs.Stated.{stated};
ghost use Rattle.lines.specs.Output.{number_room, line_room, Wrote, WroteOut, Roomy};

use crate::block;
pub use crate::block::LINE;
use crate::failure::Failure;
use std::marker::Model;
use theory::refusal::Refusal;

// The used bytes of the block are held: they are to be written out.
#[derive(Drop)]
pub struct Output<const ROOM: usize> {
    block: [u8; ROOM],
    used: usize,
}

impl<const ROOM: usize> Model for Output<ROOM> {
    ghost use Rattle.std.specs.Prelude.{ℕ, List, ◌≤◌, take};

    ghost Value = { List ℕ };

    ghost view = { λ o. take o.used o.block };

    ghost invariant = { λ o. o.used ≤ ROOM };
}

impl<const ROOM: usize> Output<ROOM> {
    pub fn new() -> Self
        ensures { result ≡ [] }
    {
        Output {
            block: [0; ROOM],
            used: 0,
        }
    }

    pub fn word(&mut self, bytes: &[u8])
        requires { length self.old + length bytes.now ≤ ROOM }
        ensures { self.new ≡ self.old ++ bytes.now }
    {
        self.used = block::word(&mut self.block, self.used, bytes);
    }

    // A number in decimal and one byte.
    pub fn number(&mut self, n: usize, after: u8)
        requires { length self.old + length (number_and n after) ≤ ROOM }
        ensures { self.new ≡ self.old ++ number_and n after }
    {
        self.used = block::number(&mut self.block, self.used, n, after);
    }

    // Numbers on a line, single-spaced.
    pub fn row(&mut self, numbers: &[u64], last: u64)
        requires { length self.old + (length numbers.now + 1) * number_room ≤ ROOM }
        ensures put { self.new ≡ self.old ++ row numbers.now last }
        ensures upper_bound { length self.new ≤ length self.old + (length numbers.now + 1) * number_room }
    {
        self.used = block::row(&mut self.block, self.used, numbers, last);
    }

    // 01: "Both print `refused R P` (number, place) on a refusal".
    pub fn refused(&mut self, refusal: Refusal)
        requires { length self.old + line_room ≤ ROOM }
        ensures put { self.new ≡ self.old ++ refusal_line (stated refusal) }
        ensures upper_bound { length self.new ≤ length self.old + line_room }
    {
        let number = refusal.cause.number();
        self.used = block::refused(&mut self.block, self.used, number, refusal.place);
    }

    // What is held, and no other bytes.
    fn hand_on(&self, bytes: &[u8]) -> Result<usize, Failure>
        requires { bytes.now ≡ self.now }
        ensures { Wrote (length bytes.now) result }
    {
        block::write(bytes)
    }

    // What a program answers goes out whole. How many bytes that were.
    pub fn write_out(&mut self) -> Result<usize, Failure>
        ensures { WroteOut self.old result self.new }
    {
        let count = self.hand_on(&self.block[..self.used])?;
        self.used = 0;
        Ok(count)
    }

    // Writes out what is held where a line might not fit after it, or where the caller would wait.
    pub fn make_room(&mut self, waits: bool) -> Result<usize, Failure>
        requires { line_room ≤ ROOM }
        ensures { Roomy ROOM self.old waits result self.new }
    {
        if block::is_due(ROOM, self.used, waits) {
            self.write_out()
        } else {
            Ok(0)
        }
    }
}
