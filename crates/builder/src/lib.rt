// The builder: the partial derivative automaton of an expression table, in the lent columns.

#![tactic(auto)]

mod arcs;
mod letters;
mod making;
mod states;

ghost use Rattle.std.specs.Prelude.{◌≡◌, ◌↔◌, IsTrue, cond};
ghost use Rattle.theory.specs.Refusal.{refusal, columns_differ};
ghost use Rattle.theory.specs.Stated.{refusal_in};
ghost use Rattle.theory.specs.Table.{table_refusal};
ghost use Rattle.theory.specs.Build.{EvenLent, Cleared, Built};
ghost use Rattle.columns.specs.Table.{read_table, SameTable};
ghost use Rattle.columns.specs.States.{SameStates};
ghost use Rattle.columns.specs.Arcs.{SameArcs};
ghost use Rattle.columns.specs.Lent.{lent_all};
ghost use Rattle.builder.specs.Answer.{answer};

use columns::arcs::ArcsMut;
use columns::states::StatesMut;
use columns::table::{Table, TableMut};
use theory::refusal::{Cause, Refusal};

// 01: "The result gives the three counts."
#[derive(Clone, Copy, PartialEq, Eq)]
pub struct Counts {
    pub states: usize,
    pub expressions: usize,
    pub arcs: usize,
}

pub fn build(
    given: Table<'_>,
    rows: &mut TableMut<'_>,
    states: &mut StatesMut<'_>,
    arcs: &mut ArcsMut<'_>,
) -> Result<Counts, Refusal>
    ensures same_rows { SameTable rows.old rows.new }
    ensures same_states { SameStates states.old states.new }
    ensures same_arcs { SameArcs arcs.old arcs.new }
    ensures built { Built (read_table given.entry) (lent_all rows.old states.old arcs.old) (answer result)
        (lent_all rows.new states.new arcs.new) }
{
    let even = are_even(rows, states, arcs);
    clear(rows, states, arcs);
    checked(even, given)?;
    let Ok(counts) = making::make(given, rows, states, arcs) else {
        clear(rows, states, arcs);
        return Err(Refusal {
            cause: Cause::RoomSmall,
            place: 0,
        });
    };
    Ok(counts)
}

// 01, refusal 1: "columns of one table differ in length", here of the three lent tables.
fn are_even(rows: &TableMut<'_>, states: &StatesMut<'_>, arcs: &ArcsMut<'_>) -> bool
    ensures { IsTrue result ↔ EvenLent (lent_all rows.now states.now arcs.now) }
{
    rows.view().is_even() & states.is_even() & arcs.view().is_even()
}

// 01: "Builder: 1, 2, 3, then entries from 0 upward, each checked for 4, 5, 6, 7; then 8; then 9." All but 9, which is told by building.
fn checked(even: bool, given: Table<'_>) -> Result<(), Refusal>
    ensures { refusal_in result ≡ cond even (table_refusal (read_table given.entry)) (refusal columns_differ 0) }
{
    if !even {
        return Err(Refusal {
            cause: Cause::ColumnsDiffer,
            place: 0,
        });
    }
    table::check(given)
}

// 01: "sets all lent output and work columns to zero". Inline, so that a program of whose columns nothing is read need not write them.
#[inline(always)]
pub fn clear(rows: &mut TableMut<'_>, states: &mut StatesMut<'_>, arcs: &mut ArcsMut<'_>)
    ensures same_rows { SameTable rows.old rows.new }
    ensures same_states { SameStates states.old states.new }
    ensures same_arcs { SameArcs arcs.old arcs.new }
    ensures cleared { Cleared (lent_all rows.old states.old arcs.old) (lent_all rows.new states.new arcs.new) }
{
    rows.clear();
    states.clear();
    arcs.clear();
}
