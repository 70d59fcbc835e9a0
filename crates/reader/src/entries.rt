// The bytes that make an entry, and the sign, which waits for its `)`.

ghost use Rattle.std.specs.Prelude.{◌≡◌, [], ◌∷◌, ◌≤◌, ◌<◌};
ghost use Rattle.theory.specs.Refusal.{refusal, not_grammar};
ghost use Rattle.theory.specs.Stated.{stated};
ghost use Rattle.theory.specs.Scan.{token};
ghost use Rattle.columns.specs.Row.{as_row};
ghost use Rattle.columns.specs.Table.{lent_table, SameTable};
ghost use Rattle.reader.specs.Found.{Room, Entry, IsLeafRow, SignAt, CloseAt, Start, After, Answered, Unstarred};

use columns::cursor::Cursor;
use columns::row::Row;
use columns::table::TableMut;
use theory::kind::{Kind, Sign};
use theory::refusal::{Cause, Refusal};

// How far a reading is. 01: "The text place .. a small cursor, handed in and handed back"; with it the parentheses open at once, the entries
// made, and the room for them.
#[derive(Clone, Copy)]
pub struct Point {
    pub cursor: Cursor,
    pub depth: usize,
    pub made: usize,
    pub room: usize,
}

// 01: "the value with its cursor, or the refusal with its byte". The value is the number of entries made, the expression's own the
// last of them.
pub type Found = Result<(usize, Cursor), Refusal>;

// 01, refusal 13: the byte at which the grammar allows no text.
pub fn not_grammar(place: usize) -> Refusal
    ensures { stated result ≡ refusal not_grammar place }
{
    Refusal {
        cause: Cause::NotGrammar,
        place,
    }
}

// The entry of the byte before the cursor. 01, refusal 15: "an entry more than the smaller of 512 and the column length", at that byte.
pub fn entry(at: Point, row: Row, table: &mut TableMut<'_>) -> Found
    requires { Room at.room (lent_table table.old) × (0 < at.cursor.at) }
    ensures same { SameTable table.old table.new }
    ensures entry { Entry at.room at.made at.cursor (as_row row ∷ []) (lent_table table.old) result
        (lent_table table.new) }
{
    if at.made < at.room {
        table.put(at.made, row);
        Ok((at.made + 1, at.cursor))
    } else {
        Err(Refusal {
            cause: Cause::TooManyEntries,
            place: at.cursor.at - 1,
        })
    }
}

// What a byte is by itself: `1` or "one letter `A`-`Z` or `a`-`z`", with its row, or no expression.
pub fn leaf(byte: u8) -> Option<Row>
    ensures { IsLeafRow (token byte) result }
{
    if byte == b'1' {
        return Some(Row {
            kind: Kind::EmptyWord.number(),
            left: 0,
            right: 0,
        });
    }
    if byte.is_ascii_alphabetic() {
        return Some(Row {
            kind: Kind::Letter.number(),
            left: u16::from(byte),
            right: 0,
        });
    }
    None
}

// 01: "with sign `+`, `.` or `&`".
#[tactic(auto, using(crate::proofs::Stepped::no_sign), unfolding(theory::specs::Grammar::sign_byte))]
pub fn sign(text: &[u8], cursor: Cursor) -> Result<(Sign, Cursor), Refusal>
    ensures { SignAt text.now cursor.at result }
{
    let place = cursor.at;
    let Some((byte, cursor)) = cursor.step(text) else {
        return Err(not_grammar(place));
    };
    match byte {
        b'+' => Ok((Sign::Union, cursor)),
        b'.' => Ok((Sign::Concatenation, cursor)),
        b'&' => Ok((Sign::Shuffle, cursor)),
        _ => Err(not_grammar(place)),
    }
}

// 01: "a sign's entry at its `)`".
pub fn close(text: &[u8], at: Point, row: Row, table: &mut TableMut<'_>) -> Found
    requires { Room at.room (lent_table table.old) }
    ensures same { SameTable table.old table.new }
    ensures close { CloseAt text.now at.room at.cursor.at at.made (as_row row)
        (lent_table table.old) result
        (lent_table table.new) }
{
    let place = at.cursor.at;
    let Some((byte, cursor)) = at.cursor.step(text) else {
        return Err(not_grammar(place));
    };
    if byte == b')' {
        entry(Point { cursor, ..at }, row, table)
    } else {
        Err(not_grammar(place))
    }
}

// 01: "an expression followed by `*`"; "a star at its `*`".
pub fn stars(text: &[u8], at: Point, table: &mut TableMut<'_>) -> Found
    requires { Room at.room (lent_table table.old) × (0 < at.made) × (at.made ≤ at.room) }
    ensures same { SameTable table.old table.new }
    ensures answered { (s : Start) → After at.room text.now s at.cursor.at at.made (lent_table table.old)
        → Answered at.room text.now s result (lent_table table.new) }
    ensures unstarred { Unstarred text.now result }
{
    let mut cursor = at.cursor;
    let mut made = at.made;
    loop {
        let Some((byte, after)) = cursor.step(text) else {
            return Ok((made, cursor));
        };
        if byte != b'*' {
            return Ok((made, cursor));
        }
        let row = Row {
            kind: Kind::Star.number(),
            left: (made - 1) as u16,
            right: 0,
        };
        let point = Point {
            cursor: after,
            made,
            ..at
        };
        let star = entry(point, row, table);
        let Ok((more, next)) = star else {
            return star;
        };
        made = more;
        cursor = next;
    }
}
