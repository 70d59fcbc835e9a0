// The three columns of arcs: `Arcs` to read, `ArcsMut` to write.

ghost use Rattle.std.specs.Prelude.{◌≡◌, ◌↔◌, IsTrue};
ghost use Rattle.theory.specs.Automaton.{arc};
ghost use Rattle.theory.specs.Arcs.{EvenArcs, with_arc, no_arcs};
ghost use Rattle.columns.specs.Arcs.{read_arcs, lent_arcs, HasArc, SameArcs};

// "from 16 bits, letter 8 bits, to 16 bits"
#[derive(Clone, Copy)]
pub struct Arcs<'a> {
    pub from: &'a [u16],
    pub letter: &'a [u8],
    pub to: &'a [u16],
}

#[derive(Drop)]
pub struct ArcsMut<'a> {
    pub from: &'a mut [u16],
    pub letter: &'a mut [u8],
    pub to: &'a mut [u16],
}

impl Arcs<'_> {
    // 01, refusal 1: "columns of one table differ in length".
    pub fn is_even(self) -> bool
        ensures { IsTrue result ↔ EvenArcs (read_arcs self.entry) }
    {
        self.letter.len() == self.from.len() && self.to.len() == self.from.len()
    }
}

impl ArcsMut<'_> {
    pub fn view(&self) -> Arcs<'_>
        ensures { read_arcs result ≡ lent_arcs self.now }
    {
        Arcs {
            from: self.from,
            letter: self.letter,
            to: self.to,
        }
    }

    // The arc from state i by the letter a to state j, at place n.
    pub fn put(&mut self, n: usize, i: u16, a: u8, j: u16)
        requires { HasArc (lent_arcs self.old) n }
        ensures same { SameArcs self.old self.new }
        ensures put { lent_arcs self.new ≡ with_arc (lent_arcs self.old) n (arc i a j) }
    {
        self.from[n] = i;
        self.letter[n] = a;
        self.to[n] = j;
    }

    // 01: "sets all lent output and work columns to zero".
    pub fn clear(&mut self)
        ensures same { SameArcs self.old self.new }
        ensures cleared { lent_arcs self.new ≡ no_arcs (lent_arcs self.old) }
    {
        self.from.fill(0);
        self.letter.fill(0);
        self.to.fill(0);
    }
}
