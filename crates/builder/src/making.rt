// State 0, and all that is met from it on.

ghost use Rattle.std.specs.Prelude.{◌≡◌, ℕ};
ghost use Rattle.theory.specs.Table.{tree, table_refusal};
ghost use Rattle.columns.specs.Table.{read_table, SameTable};
ghost use Rattle.columns.specs.States.{SameStates as SameLentStates};
ghost use Rattle.columns.specs.Arcs.{SameArcs as SameLentArcs};
ghost use Rattle.columns.specs.Lent.{lent_all};
ghost use Rattle.derive.specs.Rows.{rows_table, SameRows};
ghost use Rattle.builder.specs.Columns.{held, used_in, rooms_in, rooms_at, rooms_of, SameStates, SameArcs};
ghost use Rattle.builder.specs.Progress.{Ready, Meets, Met, Started, Knows, Reaches, Makes, Begins, Begun, Blank, root};

use super::Counts;
use super::arcs::Arcs;
use super::letters::{Letters, gather};
use super::states::States;
use columns::arcs::ArcsMut;
use columns::states::StatesMut;
use columns::table::{Table, TableMut};
use derive::rows::{NoRoom, Rows, empty_word};
use theory::kind::Kind;
use theory::limit;

// The automaton of the given table, in columns that are clear. 01: "Rooms: table length, or 65,535 for expressions and states and 16,777,216 for
// arcs if that is smaller."
pub fn make(
    given: Table<'_>,
    rows: &mut TableMut<'_>,
    states: &mut StatesMut<'_>,
    arcs: &mut ArcsMut<'_>,
) -> Result<Counts, NoRoom>
    requires right_value { (table_refusal (read_table given)).number ≡ 0 }
    requires blank { Blank (rooms_of (lent_all rows.old states.old arcs.old)) (lent_all rows.old states.old arcs.old) }
    ensures same_rows { SameTable rows.old rows.new }
    ensures same_states { SameLentStates states.old states.new }
    ensures same_arcs { SameLentArcs arcs.old arcs.new }
    ensures reaches { Makes (tree (read_table given.entry)) (rooms_of (lent_all rows.old states.old arcs.old))
        result (lent_all rows.new states.new arcs.new) }
{
    let mut rows = Rows {
        room: rows.kind.len().min(limit::EXPRESSIONS),
        kind: rows.kind,
        left: rows.left,
        right: rows.right,
        used: 0,
    };
    let mut states = States {
        room: states.expression.len().min(limit::STATES),
        expression: states.expression,
        accepting: states.accepting,
        used: 0,
    };
    let mut arcs = Arcs {
        room: arcs.from.len().min(limit::ARCS),
        from: arcs.from,
        letter: arcs.letter,
        to: arcs.to,
        used: 0,
    };
    start(given, &mut rows, &mut states)?;
    fill(gather(given), &mut rows, &mut states, &mut arcs)?;
    Ok(Counts {
        states: states.used,
        expressions: rows.used,
        arcs: arcs.used,
    })
}

// State 0: the literal empty word as row 0, the given expression after it.
fn start(given: Table<'_>, rows: &mut Rows<'_>, states: &mut States<'_>) -> Result<(), NoRoom>
    requires right_value { (table_refusal (read_table given)).number ≡ 0 }
    requires begins { (n : ℕ) → Begins (rooms_at rows.old states.old n) (rows_table rows.old) states.old.expression.now states.old.accepting.now }
    requires none { states.old.used ≡ 0 }
    ensures same_rows { SameRows rows.old rows.new }
    ensures same_states { SameStates states.old states.new }
    ensures begun { (n : ℕ) → Begun (tree (read_table given.entry)) (rooms_at rows.old states.old n) result
        (record { rows = rows.new.used; states = states.new.used; arcs = 0 }) (rows_table rows.new) states.new.expression.now states.new.accepting.now }
{
    if rows.room == 0 {
        return Err(NoRoom);
    }
    rows.kind[0] = Kind::EmptyWord.number();
    rows.used = 1;
    let row = rows.take_over(given, given.kind.len() - 1)?;
    let accepts = empty_word(&rows.view(), row);
    states.add(row, accepts)?;
    Ok(())
}

// 01: "States are handled in number order, letters from 1 to 255 for each, members in list order". By a letter that no entry has nothing
// is met, so it is passed over.
fn fill(
    letters: Letters,
    rows: &mut Rows<'_>,
    states: &mut States<'_>,
    arcs: &mut Arcs<'_>,
) -> Result<(), NoRoom>
    requires started { Started (held rows.old states.old arcs.old) (rooms_in rows.old states.old arcs.old) (used_in rows.old states.old arcs.old) }
    requires knows { Knows letters (root (held rows.old states.old arcs.old)) }
    ensures same_rows { SameRows rows.old rows.new }
    ensures same_states { SameStates states.old states.new }
    ensures same_arcs { SameArcs arcs.old arcs.new }
    ensures reaches { Reaches (root (held rows.old states.old arcs.old)) (rooms_in rows.old states.old arcs.old)
        result (used_in rows.new states.new arcs.new) (held rows.new states.new arcs.new) }
{
    let Some(first) = letters.next(0) else {
        return Ok(());
    };
    let mut i = 0;
    let mut a = first;
    let mut e = states.expression[0] as usize;
    let mut after = None;
    loop {
        if let Some(row) = derive::walk::step(rows, a, e, after)? {
            meet(rows, states, arcs, i, a, row)?;
            after = Some(row);
        } else {
            let Some((state, letter)) = letters.turn(first, i, a, states.used) else {
                return Ok(());
            };
            i = state;
            a = letter;
            e = states.expression[i] as usize;
            after = None;
        }
    }
}

// The member `row` of the derivative of state i by the letter a: its state, found or added, and the arc to it.
fn meet(
    rows: &Rows<'_>,
    states: &mut States<'_>,
    arcs: &mut Arcs<'_>,
    i: usize,
    a: u8,
    row: usize,
) -> Result<(), NoRoom>
    requires ready { Ready (held rows.now states.old arcs.old) (rooms_in rows.now states.old arcs.old) (used_in rows.now states.old arcs.old) }
    requires meets { Meets (held rows.now states.old arcs.old) (used_in rows.now states.old arcs.old) i a row }
    ensures same_states { SameStates states.old states.new }
    ensures same_arcs { SameArcs arcs.old arcs.new }
    ensures met { Met (held rows.now states.old arcs.old) (used_in rows.now states.old arcs.old)
        (rooms_in rows.now states.old arcs.old) i a row result (used_in rows.now states.new arcs.new)
        (held rows.now states.new arcs.new) }
{
    if let Some(j) = states.find(row) {
        return arcs.add(i, a, j);
    }
    let j = states.add(row, empty_word(&rows.view(), row))?;
    arcs.add(i, a, j)
}
