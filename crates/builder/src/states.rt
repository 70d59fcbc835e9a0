// The lent columns of states, how many states stand in them, and the room for more.

ghost use Rattle.std.specs.Prelude.{◌≡◌, ◌≤◌, ◌<◌, cond, length};
ghost use Rattle.builder.specs.Columns.{SameStates, FirstEqual, StateAdded};

use derive::rows::NoRoom;

#[derive(Drop)]
pub struct States<'a> {
    pub expression: &'a mut [u16],
    pub accepting: &'a mut [u8],
    pub used: usize,
    pub room: usize,
}

impl States<'_> {
    // The first of the states whose row is `row`.
    pub fn find(&self, row: usize) -> Option<usize>
        requires { self.now.used ≤ length self.now.expression.now }
        ensures { FirstEqual self.now.expression.now self.now.used row result }
    {
        self.expression[..self.used]
            .iter()
            .position(|&r| r as usize == row)
    }

    // A state whose row is `row`, behind the others.
    pub fn add(&mut self, row: usize, accepts: bool) -> Result<usize, NoRoom>
        requires spans { (self.old.room ≤ length self.old.expression.now) × (self.old.room ≤ length self.old.accepting.now) }
        requires narrow { row < 65536 }
        ensures same { SameStates self.old self.new }
        ensures added { StateAdded self.old.room self.old.used self.old.expression.now self.old.accepting.now row (cond accepts 1 0) result
            self.new.used self.new.expression.now self.new.accepting.now }
    {
        let state = self.used;
        if self.room <= state {
            return Err(NoRoom);
        }
        self.expression[state] = row as u16;
        self.accepting[state] = accepts as u8;
        self.used = state + 1;
        Ok(state)
    }
}
