// What can be wrong with an entry by itself: refusals 4 to 7.

ghost use Rattle.std.specs.Prelude.{◌≡◌};
ghost use Rattle.theory.specs.Meant.{kind_meaning};
ghost use Rattle.theory.specs.Stated.{refusal_in};
ghost use Rattle.theory.specs.Table.{size, row, SameLengths, fields_fit, row_children, all_smaller, entry_fault, first_fault};
ghost use Rattle.columns.specs.Row.{as_row};
ghost use Rattle.columns.specs.Table.{read_table};
ghost use Rattle.table.specs.Fault.{number_of};

use columns::row::{Children, Row};
use columns::table::Table;
use theory::kind::Kind;
use theory::limit;
use theory::refusal::{Cause, Refusal};

// 01's table of kinds, where left and right hold no child.
#[tactic(auto, unfolding(theory::specs::Table::fields_fit))]
fn fields_fit(kind: Kind, w: Row) -> bool
    ensures { result ≡ fields_fit (kind_meaning kind) w.left w.right }
{
    match kind {
        Kind::Letter => (1 <= w.left) & (w.left <= limit::LETTER) & (w.right == 0),
        Kind::Sign(_) => true,
        Kind::Star => w.right == 0,
        _ => (w.left == 0) & (w.right == 0),
    }
}

// 01: "A child's number is smaller than its parent's."
#[tactic(auto, unfolding(theory::specs::Table::all_smaller))]
fn children_smaller(i: usize, w: Row) -> bool
    ensures { result ≡ all_smaller i (row_children (as_row w)) }
{
    match w.children() {
        Children::Nothing => true,
        Children::One { child } => child < i,
        Children::Two { left, right } => (left < i) & (right < i),
    }
}

// What is wrong with entry i of `entries`.
#[tactic(auto, unfolding(theory::specs::Table::entry_fault))]
fn fault(entries: usize, i: usize, w: Row) -> Option<Cause>
    ensures { number_of result ≡ entry_fault entries i (as_row w) }
{
    let Some(kind) = Kind::of(w.kind) else {
        return Some(Cause::KindUnknown);
    };
    if !fields_fit(kind, w) {
        return Some(Cause::FieldOutside);
    }
    if !children_smaller(i, w) {
        return Some(Cause::ChildNotSmaller);
    }
    if kind == Kind::EmptyLanguage && 1 < entries {
        return Some(Cause::EmptyLanguageInside);
    }
    None
}

// 01: "entries from 0 upward, each checked for 4, 5, 6, 7".
#[tactic(auto, using(crate::proofs::Scanning::scan_laws))]
pub fn entries_checked(table: Table<'_>) -> Result<(), Refusal>
    requires { SameLengths (read_table table) }
    ensures { refusal_in result ≡ first_fault
        (λ i. entry_fault (size (read_table table.entry)) i (row (read_table table.entry) i))
        0 (size (read_table table.entry)) }
{
    let entries = table.kind.len();
    for i in 0..entries {
        if let Some(cause) = fault(entries, i, table.row(i)) {
            return Err(Refusal { cause, place: i });
        }
    }
    Ok(())
}
