// The walk along a derivative's list: whether a tree is a member, and the member after a given one. A place in a list is `None`, before
// the list, or one of its members, as a row.

ghost use Rattle.std.specs.Prelude.{◌≡◌, ◌<◌, OnErr};
ghost use Rattle.columns.specs.Table.{read_table};
ghost use Rattle.derive.specs.Rows.{rows_table, SameRows, Fitted};
ghost use Rattle.derive.specs.Sides.{WithinRow};
ghost use Rattle.derive.specs.Walk.{RowAmong, SideAmong, PlaceAmong, PlaceWithin, lowered_place, letter_step};
ghost use Rattle.derive.specs.Walk.{RowHas, SideHas, SideStands, RowPlace, SidePlace, RowSteps, SideSteps, FreshSteps};

use super::rows::{NoRoom, Rows};
use super::sides::{Side, left_side, lower, right_side};
use columns::table::Table;
use theory::kind::Kind;

// Whether the row `member` is in the list of `row` by the letter: a letter's list is the literal empty word, any other row's is what its
// two sides have.
#[cycle(has_side_has)]
fn has(table: &Table<'_>, letter: u8, row: usize, member: usize) -> bool
    requires { RowAmong (read_table table.now) row member }
    ensures { RowHas (read_table table.now) letter row member result }
{
    let w = table.row(row);
    if w.kind == Kind::Letter.number() {
        return (w.left == letter as u16) & (member == 0);
    }
    side_has(table, letter, left_side(table, row), member)
        || side_has(table, letter, right_side(table, row), member)
}

// A side's list is its child's, each member joined with the side's other tree.
#[cycle(has_side_has)]
fn side_has(table: &Table<'_>, letter: u8, side: Option<Side>, member: usize) -> bool
    requires { SideAmong (read_table table.now) side member }
    ensures { SideHas (read_table table.now) letter side member result }
{
    let Some(side) = side else {
        return false;
    };
    let Some(inner) = lower(table, side, member) else {
        return false;
    };
    has(table, letter, side.child, inner)
}

// The next member of the list of `row` by the letter: the left side's list, then what the right side has beyond it.
#[cycle(fresh_step_side_step_step)]
pub fn step(
    rows: &mut Rows<'_>,
    letter: u8,
    row: usize,
    after: Option<usize>,
) -> Result<Option<usize>, NoRoom>
    requires fitted { Fitted (rows_table rows.old) rows.old.used rows.old.room }
    requires row_lt_used { (row < rows.old.used) × RowPlace (rows_table rows.old) rows.old.used letter row after }
    ensures same { SameRows rows.old rows.new }
    ensures steps { RowSteps (rows_table rows.old) rows.old.used rows.old.room letter row after result
        (rows_table rows.new) rows.new.used }
    ensures full { OnErr result (rows.new.used ≡ rows.new.room) }
{
    let table = rows.view();
    let w = table.row(row);
    if w.kind == Kind::Letter.number() {
        return Ok(letter_step(w.left == letter as u16, after));
    }
    let a = left_side(&table, row);
    let b = right_side(&table, row);
    if !place_has(&table, letter, a, after) {
        return fresh_step(rows, letter, a, b, after);
    }
    if let Some(member) = side_step(rows, letter, a, after)? {
        return Ok(Some(member));
    }
    fresh_step(rows, letter, a, b, None)
}

// A letter's list is the literal empty word where the letter is the one asked for, and else it is empty.
fn letter_step(met: bool, after: Option<usize>) -> Option<usize>
    ensures { result ≡ letter_step met after }
{
    (met && after.is_none()).then_some(0)
}

// The start of the list and each member of the left side are walked there.
fn place_has(table: &Table<'_>, letter: u8, side: Option<Side>, after: Option<usize>) -> bool
    requires { PlaceAmong (read_table table.now) side after }
    ensures { SideStands (read_table table.now) letter side after result }
{
    let Some(row) = after else {
        return true;
    };
    side_has(table, letter, side, row)
}

// The child's next member, joined.
#[cycle(fresh_step_side_step_step)]
fn side_step(
    rows: &mut Rows<'_>,
    letter: u8,
    side: Option<Side>,
    after: Option<usize>,
) -> Result<Option<usize>, NoRoom>
    requires fitted { Fitted (rows_table rows.old) rows.old.used rows.old.room }
    requires within_row { WithinRow rows.old.used rows.old.used side
        × SidePlace (rows_table rows.old) rows.old.used letter side after }
    ensures same { SameRows rows.old rows.new }
    ensures steps { SideSteps (rows_table rows.old) rows.old.used rows.old.room letter side after result
        (rows_table rows.new) rows.new.used }
    ensures full { OnErr result (rows.new.used ≡ rows.new.room) }
{
    let Some(side) = side else {
        return Ok(None);
    };
    let inner = lower_place(&rows.view(), side, after);
    let Some(member) = step(rows, letter, side.child, inner)? else {
        return Ok(None);
    };
    let row = rows.lift(side, member)?;
    Ok(Some(row))
}

// The place in the child's list that the join takes to the place `after`.
fn lower_place(table: &Table<'_>, side: Side, after: Option<usize>) -> Option<usize>
    requires { PlaceWithin (read_table table.now) after }
    ensures { result ≡ lowered_place (read_table table.now) side.other side.join after }
{
    lower(table, side, after?)
}

// The next member of the right side that the left side does not have.
#[inline(always)]
#[cycle(fresh_step_side_step_step)]
fn fresh_step(
    rows: &mut Rows<'_>,
    letter: u8,
    a: Option<Side>,
    b: Option<Side>,
    after: Option<usize>,
) -> Result<Option<usize>, NoRoom>
    requires fitted { Fitted (rows_table rows.old) rows.old.used rows.old.room }
    requires within_row { WithinRow rows.old.used rows.old.used a × WithinRow rows.old.used rows.old.used b }
    requires side_place { SidePlace (rows_table rows.old) rows.old.used letter b after }
    ensures same { SameRows rows.old rows.new }
    ensures steps { FreshSteps (rows_table rows.old) rows.old.used rows.old.room letter a b after result
        (rows_table rows.new) rows.new.used }
    ensures full { OnErr result (rows.new.used ≡ rows.new.room) }
{
    let mut at = after;
    while let Some(member) = side_step(rows, letter, b, at)? {
        if !side_has(&rows.view(), letter, a, member) {
            return Ok(Some(member));
        }
        at = Some(member);
    }
    Ok(None)
}
