// A row of an expression table, read whole, and the children that it names.

ghost use Rattle.std.specs.Prelude.{◌≡◌};
ghost use Rattle.theory.specs.Table.{row_children};
ghost use Rattle.columns.specs.Row.{as_row, as_children};

use theory::kind::Kind;

#[derive(Clone, Copy, PartialEq, Eq)]
pub struct Row {
    pub kind: u8,
    pub left: u16,
    pub right: u16,
}

#[derive(Drop)]
pub enum Children {
    Nothing,
    One { child: usize },
    Two { left: usize, right: usize },
}

impl Row {
    #[tactic(auto, unfolding(theory::specs::Table::row_children, theory::specs::Table::children))]
    pub fn children(self) -> Children
        ensures { as_children result ≡ row_children (as_row self) }
    {
        let left = self.left as usize;
        let right = self.right as usize;
        let Some(kind) = Kind::of(self.kind) else {
            return Children::Nothing;
        };
        match kind {
            Kind::Sign(_) => Children::Two { left, right },
            Kind::Star => Children::One { child: left },
            _ => Children::Nothing,
        }
    }
}
