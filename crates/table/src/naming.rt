// How often an entry is named as a child: refusal 8.

ghost use Rattle.std.specs.Prelude.{◌≡◌, pred};
ghost use Rattle.theory.specs.Stated.{refusal_in};
ghost use Rattle.theory.specs.Table.{size, SameLengths, row_children, times, named, naming_fault, first_fault};
ghost use Rattle.columns.specs.Row.{as_row};
ghost use Rattle.columns.specs.Table.{read_table};

use columns::row::{Children, Row};
use columns::table::Table;
use theory::refusal::{Cause, Refusal};

#[tactic(auto, using(theory::proofs::Times::times_append), unfolding(theory::specs::Table::times))]
fn times_in_row(w: Row, i: usize) -> usize
    ensures { result ≡ times i (row_children (as_row w)) }
{
    match w.children() {
        Children::Nothing => 0,
        Children::One { child } => usize::from(child == i),
        Children::Two { left, right } => usize::from(left == i) + usize::from(right == i),
    }
}

#[tactic(auto, using(crate::proofs::Named::sum_laws), unfolding(theory::specs::Table::named, theory::specs::Table::times))]
fn times_named(table: Table<'_>, i: usize) -> usize
    requires { SameLengths (read_table table) }
    ensures { result ≡ times i (named (read_table table.entry) (size (read_table table.entry))) }
{
    let mut times: usize = 0;
    for j in 0..table.kind.len() {
        times += times_in_row(table.row(j), i);
    }
    times
}

// 01: "an entry other than the last not named exactly once; the smallest such".
#[tactic(auto, using(crate::proofs::Named::naming_laws))]
pub fn naming_checked(table: Table<'_>) -> Result<(), Refusal>
    requires { SameLengths (read_table table) }
    ensures { refusal_in result ≡ first_fault (naming_fault (read_table table.entry))
        0 (pred (size (read_table table.entry))) }
{
    for i in 0..table.kind.len().saturating_sub(1) {
        if times_named(table, i) != 1 {
            return Err(Refusal {
                cause: Cause::NotNamedOnce,
                place: i,
            });
        }
    }
    Ok(())
}
