// The two sides of a row's derivative, the join of a member with the side's other tree, and that join undone.

ghost use Rattle.std.specs.Prelude.{◌≡◌, ◌≤◌, ◌<◌, not, ◌&&◌, eqb, OnErr};
ghost use Rattle.theory.specs.Limit.{most_expressions};
ghost use Rattle.theory.specs.Table.{tree_at, entry, kind_of_sign};
ghost use Rattle.columns.specs.Row.{as_row};
ghost use Rattle.columns.specs.Table.{read_table};
ghost use Rattle.derive.specs.Rows.{rows_table, SameRows, Fitted, SoundTo, Interns};
ghost use Rattle.derive.specs.Sides.{join_sign, arranged, beside, left_side, right_side, choose, parted, lowered};

use super::intern::pair;
use super::rows::{NoRoom, Rows, empty_word};
use columns::row::Row;
use columns::table::Table;
use theory::kind::{Kind, Sign};

// A member followed by the other tree, shuffled with it, or with the other shuffled with the member.
#[derive(Clone, Copy)]
pub enum Join {
    Followed,
    Shuffled,
    Shuffles,
}

// The members of `child`, each joined with `other`.
#[derive(Clone, Copy)]
pub struct Side {
    pub child: usize,
    pub other: usize,
    pub join: Join,
}

#[tactic(auto, unfolding(crate::specs::Sides::left_side))]
pub fn left_side(table: &Table<'_>, row: usize) -> Option<Side>
    requires { SoundTo (read_table table.now) row }
    ensures { result ≡ left_side (read_table table.now) row }
{
    let w = table.row(row);
    let child = w.left as usize;
    let right = w.right as usize;
    let (other, join) = match Kind::of(w.kind)? {
        Kind::Sign(sign) => match sign {
            Sign::Union => (0, Join::Followed),
            Sign::Concatenation => (right, Join::Followed),
            Sign::Shuffle => (right, Join::Shuffled),
        },
        Kind::Star => (row, Join::Followed),
        _ => return None,
    };
    Some(Side { child, other, join })
}

#[tactic(auto, unfolding(crate::specs::Sides::right_side))]
pub fn right_side(table: &Table<'_>, row: usize) -> Option<Side>
    requires { SoundTo (read_table table.now) row }
    ensures { result ≡ right_side (read_table table.now) row }
{
    let w = table.row(row);
    let left = w.left as usize;
    let child = w.right as usize;
    let Kind::Sign(sign) = Kind::of(w.kind)? else {
        return None;
    };
    let (other, join) = match sign {
        Sign::Union => (0, Join::Followed),
        Sign::Concatenation => {
            if !empty_word(table, left) {
                return None;
            }
            (0, Join::Followed)
        }
        Sign::Shuffle => (left, Join::Shuffles),
    };
    Some(Side { child, other, join })
}

// The row of the join where neither tree is the literal empty word.
#[tactic(auto, unfolding(theory::specs::Table::kind_of_sign))]
fn joined(join: Join, other: usize, member: usize) -> Row
    requires { (other ≤ most_expressions) × (member ≤ most_expressions) }
    ensures { as_row result ≡ arranged join (entry (kind_of_sign (join_sign join))) member other }
{
    match join {
        Join::Followed => pair(Sign::Concatenation, member, other),
        Join::Shuffled => pair(Sign::Shuffle, member, other),
        Join::Shuffles => pair(Sign::Shuffle, other, member),
    }
}

impl Rows<'_> {
    // The row of a member joined with the side's other tree.
    pub(super) fn lift(&mut self, side: Side, member: usize) -> Result<usize, NoRoom>
        requires fitted { Fitted (rows_table self.old) self.old.used self.old.room }
        requires other_lt_used { (side.other < self.old.used) × (member < self.old.used) }
        ensures same { SameRows self.old self.new }
        ensures interns { Interns (rows_table self.old) self.old.used self.old.room
            (beside side.join (tree_at (rows_table self.old) side.other) (tree_at (rows_table self.old) member))
            result (rows_table self.new) self.new.used }
        ensures full { OnErr result (self.new.used ≡ self.new.room) }
    {
        if side.other == 0 {
            return Ok(member);
        }
        if member == 0 {
            return Ok(side.other);
        }
        self.intern(joined(side.join, side.other, member))
    }
}

// The member of the row w, where w is a join with the side's other tree. A join with the literal empty word is never made, though the
// given expression may hold one.
#[tactic(auto, unfolding(crate::specs::Sides::parted, theory::specs::Table::kind_of_sign))]
fn parted(w: Row, side: Side) -> Option<usize>
    ensures { result ≡ parted (as_row w) side.join side.other }
{
    let x = w.left as usize;
    let y = w.right as usize;
    let (sign, member, other) = match side.join {
        Join::Followed => (Sign::Concatenation, x, y),
        Join::Shuffled => (Sign::Shuffle, x, y),
        Join::Shuffles => (Sign::Shuffle, y, x),
    };
    let signed = w.kind == Kind::Sign(sign).number();
    (signed && other == side.other && member != 0).then_some(member)
}

// The member whose join with the side's other tree is the row p.
#[tactic(auto, unfolding(crate::specs::Sides::lowered))]
pub fn lower(table: &Table<'_>, side: Side, p: usize) -> Option<usize>
    requires { SoundTo (read_table table.now) p }
    ensures { result ≡ lowered (read_table table.now) side.other side.join p }
{
    if side.other == 0 {
        return Some(p);
    }
    if p == side.other {
        return Some(0);
    }
    parted(table.row(p), side)
}
