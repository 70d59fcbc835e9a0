// The two columns of states, to write.

ghost use Rattle.std.specs.Prelude.{◌≡◌, ◌↔◌, IsTrue, length};
ghost use Rattle.theory.specs.Column.{zeros};
ghost use Rattle.columns.specs.States.{SameStates};

// "expression number 16 bits, accepting 0 or 1 in 8 bits"
#[derive(Drop)]
pub struct StatesMut<'a> {
    pub expression: &'a mut [u16],
    pub accepting: &'a mut [u8],
}

impl StatesMut<'_> {
    // 01, refusal 1: "columns of one table differ in length".
    pub fn is_even(&self) -> bool
        ensures { IsTrue result ↔ (length self.now.accepting.now ≡ length self.now.expression.now) }
    {
        self.accepting.len() == self.expression.len()
    }

    // 01: "sets all lent output and work columns to zero".
    pub fn clear(&mut self)
        ensures same { SameStates self.old self.new }
        ensures expression { self.new.expression.now ≡ zeros (length self.old.expression.now) }
        ensures accepting { self.new.accepting.now ≡ zeros (length self.old.accepting.now) }
    {
        self.expression.fill(0);
        self.accepting.fill(0);
    }
}
