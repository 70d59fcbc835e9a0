// Text put together in a lent block, after its used bytes, and written out.

ghost use Rattle.std.specs.Prelude.{◌≡◌, ◌+◌, ◌*◌, ◌≤◌, length, take};
ghost use Rattle.theory.specs.Refusal.{refusal};
ghost use Rattle.theory.specs.Lines.{number_and, row, refusal_line};
ghost use Rattle.lines.specs.Output.{number_room, line_room, Wrote, due};
ghost use Rattle.lines.specs.Block.{Put, Roomy};

use crate::failure::Failure;

// No line of the records program and of the room report, and no refusal, is longer.
pub const LINE: usize = 128;

// The streams by their numbers.
const STDOUT: i32 = 1;

pub(crate) const STDERR: i32 = 2;

// Bytes after the used ones.
pub fn word(block: &mut [u8], used: usize, bytes: &[u8]) -> usize
    requires { used + length bytes.now ≤ length block.old }
    ensures { Put bytes.now block.old used block.new result }
{
    let end = used + bytes.len();
    block[used..end].copy_from_slice(bytes);
    end
}

// A number in decimal and one byte, after the used ones.
pub fn number(block: &mut [u8], used: usize, n: usize, after: u8) -> usize
    requires { used + length (number_and n after) ≤ length block.old }
    ensures { Put (number_and n after) block.old used block.new result }
{
    // 64 bits have at most 20 digits.
    let mut digits = [0u8; 20];
    let count = io::decimal(n as u64, &mut digits);
    let at = word(block, used, &digits[..count]);
    block[at] = after;
    at + 1
}

// Numbers on a line, single-spaced, after the used bytes.
#[tactic(auto, using(crate::proofs::Putting::number_short))]
pub fn row(block: &mut [u8], used: usize, numbers: &[u64], last: u64) -> usize
    requires { used + (length numbers.now + 1) * number_room ≤ length block.old }
    ensures put { Put (row numbers.now last) block.old used block.new result }
    ensures upper_bound { result ≤ used + (length numbers.now + 1) * number_room }
{
    let mut at = used;
    for n in numbers {
        at = number(block, at, *n as usize, b' ');
    }
    number(block, at, last as usize, b'\n')
}

// 01: "Both print `refused R P` (number, place) on a refusal".
#[tactic(auto, using(crate::proofs::Putting::number_short))]
pub fn refused(block: &mut [u8], used: usize, number: u8, place: usize) -> usize
    requires { used + line_room ≤ length block.old }
    ensures put { Put (refusal_line (refusal number place)) block.old used block.new result }
    ensures upper_bound { result ≤ used + line_room }
{
    let said = word(block, used, b"refused ");
    let numbered = self::number(block, said, number as usize, b' ');
    self::number(block, numbered, place, b'\n')
}

// Whatever a program says goes out by this one call.
pub(crate) fn hand_over(stream: i32, bytes: &[u8]) -> Result<usize, Failure>
    ensures { Wrote (length bytes.now) result }
{
    if io::write_all(stream, bytes) {
        Ok(bytes.len())
    } else {
        Err(Failure::Write)
    }
}

// What a program answers. How many bytes that were.
pub fn write(bytes: &[u8]) -> Result<usize, Failure>
    ensures { Wrote (length bytes.now) result }
{
    hand_over(STDOUT, bytes)
}

// How much of a block is used, and how many bytes were written out of it.
#[derive(Clone, Copy)]
pub struct Room {
    pub used: usize,
    pub written: usize,
}

// Whether a line might not fit after what is used of so many bytes, or the caller would wait.
pub(crate) fn is_due(size: usize, used: usize, waits: bool) -> bool
    requires { used ≤ size }
    ensures { result ≡ due size used waits }
{
    waits || size - used < LINE
}

// What is used, and no other bytes.
fn hand_on(block: &[u8], used: usize, bytes: &[u8]) -> Result<usize, Failure>
    requires { bytes.now ≡ take used block.now }
    ensures { Wrote (length bytes.now) result }
{
    write(bytes)
}

// Writes the block out where a line might not fit after what it holds, or where the caller would wait. How much of it is used then.
pub fn with_room(block: &[u8], used: usize, waits: bool) -> Result<Room, Failure>
    requires { (used ≤ length block.now) × (line_room ≤ length block.now) }
    ensures { Roomy (length block.now) used waits result }
{
    if !is_due(block.len(), used, waits) {
        return Ok(Room { used, written: 0 });
    }
    let written = hand_on(block, used, &block[..used])?;
    Ok(Room { used: 0, written })
}
