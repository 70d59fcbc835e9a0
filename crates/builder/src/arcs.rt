// The lent columns of arcs, how many arcs stand in them, and the room for more.

ghost use Rattle.std.specs.Prelude.{◌≡◌, ◌≤◌, ◌<◌};
ghost use Rattle.theory.specs.Automaton.{arc};
ghost use Rattle.theory.specs.Arcs.{Spans};
ghost use Rattle.builder.specs.Columns.{arcs_of, SameArcs, ArcAdded};

use derive::rows::NoRoom;

#[derive(Drop)]
pub struct Arcs<'a> {
    pub from: &'a mut [u16],
    pub letter: &'a mut [u8],
    pub to: &'a mut [u16],
    pub used: usize,
    pub room: usize,
}

impl Arcs<'_> {
    // The arc from state i by the letter a to state j, behind the others.
    pub fn add(&mut self, i: usize, a: u8, j: usize) -> Result<(), NoRoom>
        requires spans { Spans (arcs_of self.old) self.old.room }
        requires narrow { (i < 65536) × (j < 65536) }
        ensures same { SameArcs self.old self.new }
        ensures added { ArcAdded self.old.room self.old.used (arcs_of self.old) (arc i a j) result self.new.used (arcs_of self.new) }
    {
        let n = self.used;
        if self.room <= n {
            return Err(NoRoom);
        }
        self.from[n] = i as u16;
        self.letter[n] = a;
        self.to[n] = j as u16;
        self.used = n + 1;
        Ok(())
    }
}
