// A row found or added among the rows of the expression columns.

ghost use Rattle.std.specs.Prelude.{◌≡◌, ℕ, ◌≤◌, length, OnErr};
ghost use Rattle.theory.specs.Limit.{most_expressions};
ghost use Rattle.theory.specs.Meant.{as_sign};
ghost use Rattle.theory.specs.Table.{entry, kind_of_sign, Sound, trees, row_tree};
ghost use Rattle.columns.specs.Row.{as_row};
ghost use Rattle.columns.specs.Table.{read_table};
ghost use Rattle.derive.specs.Rows.{rows_table, SameRows, Fitted, FirstRow, Interns};

use super::rows::{NoRoom, Rows};
use columns::row::{Children, Row};
use columns::table::Table;
use theory::kind::{Kind, Sign};

// The first of the rows from `start` up to `used` that is w.
fn find(table: Table<'_>, start: usize, used: usize, w: Row) -> Option<usize>
    requires { (used ≤ length table.kind.now) × (used ≤ length table.left.now) × (used ≤ length table.right.now) }
    ensures { FirstRow (read_table table.entry) used start (as_row w) result }
{
    for i in start..used {
        if table.row(i) == w {
            return Some(i);
        }
    }
    None
}

// No row before a child can be its parent's.
fn search_start(w: Row) -> usize
    ensures { (i : ℕ) → Sound i (as_row w) → result ≤ i }
{
    match w.children() {
        Children::Nothing => 0,
        Children::One { child } => child,
        Children::Two { left, right } => left.max(right),
    }
}

impl Rows<'_> {
    pub(super) fn intern(&mut self, w: Row) -> Result<usize, NoRoom>
        requires fitted { Fitted (rows_table self.old) self.old.used self.old.room }
        requires sound { Sound self.old.used (as_row w) }
        ensures same { SameRows self.old self.new }
        ensures interns { Interns (rows_table self.old) self.old.used self.old.room
            (row_tree (as_row w) (trees (rows_table self.old) self.old.used)) result (rows_table self.new) self.new.used }
        ensures full { OnErr result (self.new.used ≡ self.new.room) }
    {
        let used = self.used;
        if let Some(row) = find(self.view(), search_start(w), used, w) {
            return Ok(row);
        }
        if self.room <= used {
            return Err(NoRoom);
        }
        self.kind[used] = w.kind;
        self.left[used] = w.left;
        self.right[used] = w.right;
        self.used = used + 1;
        Ok(used)
    }
}

// A sign's row over the rows x and y. Whatever makes one makes it here.
#[tactic(auto, unfolding(theory::specs::Table::kind_of_sign))]
pub fn pair(sign: Sign, x: usize, y: usize) -> Row
    requires { (x ≤ most_expressions) × (y ≤ most_expressions) }
    ensures { as_row result ≡ entry (kind_of_sign (as_sign sign)) x y }
{
    Row {
        kind: Kind::Sign(sign).number(),
        left: x as u16,
        right: y as u16,
    }
}
