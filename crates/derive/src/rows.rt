// The rows of the expression columns: each tree once, each child before its parent, row 0 the literal empty word.

ghost use Rattle.std.specs.Prelude.{◌≡◌, OnErr};
ghost use Rattle.theory.specs.Derivative.{empty_word};
ghost use Rattle.theory.specs.Table.{tree_at};
ghost use Rattle.columns.specs.Table.{read_table};
ghost use Rattle.derive.specs.Rows.{rows_table, SameRows, Fitted, SoundTo, Takes};

use super::intern::pair;
use columns::row::Row;
use columns::table::Table;
use theory::kind::{Kind, Sign};

// The lent columns, how many of their rows are used now, and how many may be. That they are `Fitted` stands in each function's clauses
// and not here: between the three writes of a row it does not hold.
#[derive(Drop)]
pub struct Rows<'a> {
    pub kind: &'a mut [u8],
    pub left: &'a mut [u16],
    pub right: &'a mut [u16],
    pub used: usize,
    pub room: usize,
}

// 01, refusal 9: a row is needed, and the room is used up.
#[derive(Clone, Copy, PartialEq, Eq)]
pub struct NoRoom;

impl Rows<'_> {
    pub fn view(&self) -> Table<'_>
        ensures { read_table result ≡ rows_table self.now }
    {
        Table {
            kind: self.kind,
            left: self.left,
            right: self.right,
        }
    }

    // The row of the tree of an entry of the given table, which is added with all its parts.
    pub fn take_over(&mut self, given: Table<'_>, e: usize) -> Result<usize, NoRoom>
        requires sound_to { SoundTo (read_table given) e }
        requires fitted { Fitted (rows_table self.old) self.old.used self.old.room }
        ensures same { SameRows self.old self.new }
        ensures takes { Takes (rows_table self.old) self.old.used self.old.room
            (tree_at (read_table given.entry) e) result (rows_table self.new) self.new.used }
        ensures full { OnErr result (self.new.used ≡ self.new.room) }
    {
        let w = given.row(e);
        let Some(kind) = Kind::of(w.kind) else {
            return self.intern(w);
        };
        match kind {
            Kind::Sign(sign) => {
                let x = self.take_over(given, w.left as usize)?;
                let y = self.take_over(given, w.right as usize)?;
                self.intern(pair(sign, x, y))
            }
            Kind::Star => {
                let x = self.take_over(given, w.left as usize)?;
                self.intern(Row {
                    left: x as u16,
                    ..w
                })
            }
            _ => self.intern(w),
        }
    }
}

// 01: "the answer for the empty word follows from an entry's children down to the leaves".
pub fn empty_word(table: &Table<'_>, row: usize) -> bool
    requires { SoundTo (read_table table.now) row }
    ensures { result ≡ empty_word (tree_at (read_table table.now) row) }
{
    let w = table.row(row);
    let Some(kind) = Kind::of(w.kind) else {
        return false;
    };
    match kind {
        Kind::EmptyWord => true,
        Kind::Sign(sign) => {
            let a = empty_word(table, w.left as usize);
            let b = empty_word(table, w.right as usize);
            match sign {
                Sign::Union => a | b,
                _ => a & b,
            }
        }
        Kind::Star => true,
        _ => false,
    }
}
