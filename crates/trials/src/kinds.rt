// Each kind of entry in a table written down as 01's columns have it: what the builder answers, a line as in tables.rt, then how three
// records and the empty one are judged on the automaton that it made, a line each as in records.rt. What must be printed was worked out
// from 01's rules; the states that they lead to stand at each table, and 1 is the literal empty word.

use columns::arcs::{Arcs, ArcsMut};
use columns::states::StatesMut;
use columns::table::{Table, TableMut};
use columns::work::Work;
use matcher::automaton::Automaton;

fn judge(automaton: Automaton<'_>, record: &[u8]) {
    let mut current = [7u64; 1];
    let mut next = [7u64; 1];
    let mut work = Work {
        current: &mut current,
        next: &mut next,
    };
    super::records::show(matcher::judge(automaton, record, &mut work));
}

fn judged(given: Table<'_>, records: &[&[u8]]) {
    let mut kind = [0u8; 5];
    let mut left = [0u16; 5];
    let mut right = [0u16; 5];
    let mut expression = [0u16; 5];
    let mut accepting = [0u8; 5];
    let mut from = [0u16; 5];
    let mut letter = [0u8; 5];
    let mut to = [0u16; 5];
    let mut rows = TableMut {
        kind: &mut kind,
        left: &mut left,
        right: &mut right,
    };
    let mut states = StatesMut {
        expression: &mut expression,
        accepting: &mut accepting,
    };
    let mut arcs = ArcsMut {
        from: &mut from,
        letter: &mut letter,
        to: &mut to,
    };
    let built = builder::build(given, &mut rows, &mut states, &mut arcs);
    super::tables::show(built);
    if let Ok(counts) = built {
        let arcs = Arcs {
            from: &from,
            letter: &letter,
            to: &to,
        };
        let automaton = Automaton {
            states: counts.states,
            accepting: &accepting,
            arc_count: counts.arcs,
            arcs,
        };
        for record in records {
            judge(automaton, record);
        }
    }
}

fn words<'a>(kind: &'a [u8], left: &'a [u16], right: &'a [u16]) {
    judged(Table { kind, left, right }, &[b"ab", b"ba", b"a", b""]);
}

fn letters(letter: u16) {
    let given = Table {
        kind: &[2],
        left: &[letter],
        right: &[0],
    };
    judged(given, &[&[1], &[255], &[0], b""]);
}

pub(crate) fn all() {
    // 0. One state and no arc; expressions 0 and, as always, 1. Any byte is wrong at 0; the empty record leaves state 0, which does not accept.
    words(&[0], &[0], &[0]);
    // 1. The same with one expression, and state 0 accepts.
    words(&[1], &[0], &[0]);
    // (a+b): by a the left's list, 1, by b the right's, 1. States (a+b) and 1, two arcs between them; expressions 1, a, b, (a+b).
    words(&[2, 2, 3], &[97, 98, 0], &[0, 0, 1]);
    // (a.b): by a 1 followed by b, which is b; by b nothing, since a lacks the empty word. States (a.b), b, 1 in a row; expressions as before.
    words(&[2, 2, 4], &[97, 98, 0], &[0, 0, 1]);
    // (b.a), the left child being the later entry, as no text has it: the last one with a and b exchanged.
    words(&[2, 2, 4], &[97, 98, 1], &[0, 0, 0]);
    // (a&b): by a 1 shuffled with b, which is b; by b a. States (a&b), b, a, 1; an arc to each of b and a, and one from each to 1.
    words(&[2, 2, 5], &[97, 98, 0], &[0, 0, 1]);
    // a*: by a 1 followed by a*, which is a*. One state that accepts, with an arc to itself; expressions 1, a, a*.
    words(&[2, 6], &[97, 0], &[0, 0]);
    // The first letter and the last: by it 1. States and expressions are the letter and 1; any other byte is wrong at 0.
    letters(1);
    letters(255);
}
