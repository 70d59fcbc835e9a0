// What may fail in a program that reads and writes.

ghost use Rattle.lines.specs.Output.{told_length, Wrote};

use crate::block;

#[derive(Clone, Copy)]
pub enum Failure {
    Read,
    Write,
}

impl Failure {
    // The programs set no exit status: a read or a write that fails is told on standard error.
    #[cold]
    pub fn tell(self) -> Result<usize, Failure>
        ensures { Wrote (told_length self) result }
    {
        match self {
            Failure::Read => block::hand_over(block::STDERR, b"gumpaleri 0.4.0: read failed\n"),
            Failure::Write => block::hand_over(block::STDERR, b"gumpaleri 0.4.0: write failed\n"),
        }
    }
}
