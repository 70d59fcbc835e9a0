// What the builder answers with exactly the rooms that it needs and with one less of each, and for each cause of 1 to 8 alone, a line
// each: number, place, states, expressions, arcs.

ghost use Rattle.std.specs.Prelude.{◌≤◌};

use super::lines::line;
use builder::Counts;
use columns::arcs::ArcsMut;
use columns::states::StatesMut;
use columns::table::{Table, TableMut};
use theory::refusal::Refusal;

pub(crate) fn show(built: Result<Counts, Refusal>) {
    match built {
        Err(refusal) => line(&[refusal.cause.number() as usize, refusal.place, 0, 0, 0]),
        Ok(counts) => line(&[0, 0, counts.states, counts.expressions, counts.arcs]),
    }
}

// Room for x expressions, s states with so many accepting flags, a arcs.
fn lend(given: Table<'_>, x: usize, s: usize, flags: usize, a: usize)
    requires { (x ≤ 1024) × (s ≤ 512) × (flags ≤ 512) × (a ≤ 4096) }
{
    let mut kind = [0u8; 1024];
    let mut left = [0u16; 1024];
    let mut right = [0u16; 1024];
    let mut expression = [0u16; 512];
    let mut accepting = [0u8; 512];
    let mut from = [0u16; 4096];
    let mut letter = [0u8; 4096];
    let mut to = [0u16; 4096];
    let mut rows = TableMut {
        kind: &mut kind[..x],
        left: &mut left[..x],
        right: &mut right[..x],
    };
    let mut states = StatesMut {
        expression: &mut expression[..s],
        accepting: &mut accepting[..flags],
    };
    let mut arcs = ArcsMut {
        from: &mut from[..a],
        letter: &mut letter[..a],
        to: &mut to[..a],
    };
    show(builder::build(given, &mut rows, &mut states, &mut arcs));
}

// Exactly these rooms, and one less of each.
fn exact(given: Table<'_>, x: usize, s: usize, a: usize)
    requires { (x ≤ 1024) × (s ≤ 512) × (a ≤ 4096) }
{
    lend(given, x, s, s, a);
    if 0 < x {
        lend(given, x - 1, s, s, a);
    }
    if 0 < s {
        lend(given, x, s - 1, s - 1, a);
    }
    if 0 < a {
        lend(given, x, s, s, a - 1);
    }
}

// The needs of a text: x expressions, s states, a arcs.
fn needs(text: &[u8], x: usize, s: usize, a: usize)
    requires { (x ≤ 1024) × (s ≤ 512) × (a ≤ 4096) }
{
    let mut kind = [0u8; 512];
    let mut left = [0u16; 512];
    let mut right = [0u16; 512];
    let mut table = TableMut {
        kind: &mut kind,
        left: &mut left,
        right: &mut right,
    };
    if let Ok(entries) = reader::read(text, &mut table) {
        if entries <= 512 {
            exact(table.view().first(entries), x, s, a);
        }
    }
}

fn table<'a>(kind: &'a [u8], left: &'a [u16], right: &'a [u16]) {
    lend(Table { kind, left, right }, 100, 100, 100, 100);
}

fn over_512() {
    let kind = [6u8; 513];
    let left = [0u16; 513];
    let right = [0u16; 513];
    table(&kind, &left, &right);
}

fn causes() {
    table(&[2], &[97, 0], &[0]);
    table(&[2], &[97], &[0, 0]);
    let one = Table {
        kind: &[1],
        left: &[0],
        right: &[0],
    };
    lend(one, 2, 2, 1, 2);
    table(&[], &[], &[]);
    over_512();
    table(&[7], &[0], &[0]);
    table(&[2, 7], &[97, 0], &[0, 0]);
    table(&[1], &[1], &[0]);
    table(&[2], &[0], &[0]);
    table(&[2], &[256], &[0]);
    table(&[2], &[97], &[1]);
    table(&[2, 6], &[97, 0], &[0, 1]);
    table(&[6], &[0], &[0]);
    table(&[2, 2, 3], &[97, 98, 0], &[0, 0, 2]);
    table(&[0, 6], &[0, 0], &[0, 0]);
    table(&[2, 2], &[97, 98], &[0, 0]);
    table(&[2, 3], &[97, 0], &[0, 0]);
    table(&[0], &[0], &[0]);
}

pub(crate) fn all() {
    causes();
    needs(b"0", 2, 1, 0);
    needs(b"1", 1, 1, 0);
    needs(b"a*", 3, 1, 1);
    needs(b"(a.b)*", 6, 2, 2);
    needs(b"(a&b)", 4, 4, 4);
    needs(b"(a&a)", 3, 3, 2);
    needs(b"(a&1)", 3, 2, 1);
    needs(b"((a&b)&c)", 8, 8, 12);
    needs(b"((a.b)&(c.d))", 11, 9, 12);
    needs(b"((a+1)&(b+1))*", 9, 3, 8);
    needs(b"(a+b)", 4, 2, 2);
    needs(b"(a.a)", 3, 3, 2);
    needs(b"(a.b)", 4, 3, 2);
    needs(b"((a+b).c)", 6, 3, 3);
    needs(b"(a*&b)", 5, 2, 3);
    needs(b"(a*.b*)", 6, 2, 3);
    needs(b"((a.b)*&c)", 9, 4, 6);
    needs(b"((a+a)&a)", 4, 4, 4);
    needs(b"((a&b)*&c*)", 12, 3, 7);
    needs(b"(a.(b.(c.d)))*", 12, 4, 4);
    needs(b"((a.(b.c))*&d)", 13, 6, 9);
    needs(b"(1&a)", 3, 2, 1);
    needs(b"(a.1)", 3, 2, 1);
}
