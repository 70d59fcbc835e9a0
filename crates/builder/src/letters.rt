// The letters that a table uses, in ascending order.

ghost use Rattle.std.specs.Prelude.{◌≤◌, ◌<◌, length};
ghost use Rattle.theory.specs.Limit.{most_states};
ghost use Rattle.builder.specs.Letters.{Gathers, IsNext, IsTurn};

use columns::table::Table;
use theory::kind::Kind;

// A set of letters: one mark for each byte value.
#[derive(Clone, Copy)]
pub struct Letters {
    pub marks: [bool; 256],
}

// The letters of the entries of kind 2.
pub fn gather(table: Table<'_>) -> Letters
    requires { length table.kind.now ≤ length table.left.now }
    ensures { Gathers table.entry.kind.now table.entry.left.now result }
{
    let letter = Kind::Letter.number();
    let mut marks = [false; 256];
    for i in 0..table.kind.len() {
        if table.kind[i] == letter {
            let l = table.left[i] as usize;
            if l < 256 {
                marks[l] = true;
            }
        }
    }
    Letters { marks }
}

impl Letters {
    // The smallest letter used above `after`.
    pub fn next(self, after: u8) -> Option<u8>
        ensures { IsNext self after result }
    {
        let marks = self.marks;
        for a in after as usize + 1..256 {
            if marks[a] {
                return Some(a as u8);
            }
        }
        None
    }

    // After state i by the letter a: the same state by the next letter, or the next state by the first. `None` after the last of `states` states.
    pub fn turn(self, first: u8, i: usize, a: u8, states: usize) -> Option<(usize, u8)>
        requires { i < most_states }
        ensures { IsTurn self first i a states result }
    {
        if let Some(letter) = self.next(a) {
            return Some((i, letter));
        }
        if i + 1 < states {
            Some((i + 1, first))
        } else {
            None
        }
    }
}
