// The three columns of an expression table: `Table` to read, `TableMut` to write.

ghost use Rattle.std.specs.Prelude.{◌≡◌, ◌≤◌, length, ◌↔◌, IsTrue};
ghost use Rattle.theory.specs.Table.{row, SameLengths};
ghost use Rattle.columns.specs.Row.{as_row, cleared};
ghost use Rattle.columns.specs.Table.{read_table, lent_table, Has, SameTable, first, with_row};

use super::row::Row;

#[derive(Clone, Copy)]
pub struct Table<'a> {
    pub kind: &'a [u8],
    pub left: &'a [u16],
    pub right: &'a [u16],
}

#[derive(Drop)]
pub struct TableMut<'a> {
    pub kind: &'a mut [u8],
    pub left: &'a mut [u16],
    pub right: &'a mut [u16],
}

impl<'a> Table<'a> {
    // 01: "Three columns of equal length".
    pub fn is_even(self) -> bool
        ensures { IsTrue result ↔ SameLengths (read_table self.entry) }
    {
        self.left.len() == self.kind.len() && self.right.len() == self.kind.len()
    }

    pub fn row(self, i: usize) -> Row
        requires { Has (read_table self) i }
        ensures { as_row result ≡ row (read_table self.entry) i }
    {
        Row {
            kind: self.kind[i],
            left: self.left[i],
            right: self.right[i],
        }
    }

    // 01: "a caller who read a text hands on the part of the columns that the reader filled".
    pub fn first(self, n: usize) -> Table<'a>
        requires { (n ≤ length self.kind.now) × (n ≤ length self.left.now) × (n ≤ length self.right.now) }
        ensures { read_table result ≡ first n (read_table self.entry) }
    {
        Table {
            kind: &self.kind[..n],
            left: &self.left[..n],
            right: &self.right[..n],
        }
    }
}

impl TableMut<'_> {
    pub fn view(&self) -> Table<'_>
        ensures { read_table result ≡ lent_table self.now }
    {
        Table {
            kind: self.kind,
            left: self.left,
            right: self.right,
        }
    }

    pub fn put(&mut self, i: usize, row: Row)
        requires { Has (lent_table self.old) i }
        ensures same { SameTable self.old self.new }
        ensures put { lent_table self.new ≡ with_row (lent_table self.old) i (as_row row) }
    {
        self.kind[i] = row.kind;
        self.left[i] = row.left;
        self.right[i] = row.right;
    }

    // 01: "sets all lent output and work columns to zero".
    pub fn clear(&mut self)
        ensures same { SameTable self.old self.new }
        ensures cleared { lent_table self.new ≡ cleared (lent_table self.old) }
    {
        self.kind.fill(0);
        self.left.fill(0);
        self.right.fill(0);
    }
}
