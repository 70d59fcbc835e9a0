// What the matcher answers for each cause of 1, 10 and 11, at its limit and past it, a line each: number, then verdict (1 accepted,
// 2 unfinished, 3 wrong), place and live.

ghost use Rattle.std.specs.Prelude.{◌≤◌};

use super::lines::line;
use columns::arcs::Arcs;
use columns::work::Work;
use matcher::Verdict;
use matcher::automaton::Automaton;
use theory::refusal::Refusal;

pub(crate) fn show(answer: Result<Verdict, Refusal>) {
    match answer {
        Err(refusal) => line(&[refusal.cause.number() as usize, 0, 0, 0]),
        Ok(Verdict::Accepted { live }) => line(&[0, 1, 0, live]),
        Ok(Verdict::Unfinished { live }) => line(&[0, 2, 0, live]),
        Ok(Verdict::Wrong { place }) => line(&[0, 3, place, 0]),
    }
}

// Two states, the second's accepting value, the arcs' starts and one letter and end as given; work columns of one word that are not zero
// before.
fn two_states(states: usize, flag: u8, arcs: usize, from: &[u16], l: u8, t: u16, record: &[u8]) {
    let accepting = [0, flag];
    let letter = [l];
    let to = [t];
    let mut current = [7u64; 1];
    let mut next = [7u64; 1];
    let columns = Arcs {
        from,
        letter: &letter,
        to: &to,
    };
    let automaton = Automaton {
        states,
        accepting: &accepting,
        arc_count: arcs,
        arcs: columns,
    };
    let mut work = Work {
        current: &mut current,
        next: &mut next,
    };
    show(matcher::judge(automaton, record, &mut work));
}

// No arc; so many states, and so many words in the two work columns.
fn no_arc(states: usize, words: usize, more: usize)
    requires { (words ≤ 1100) × (more ≤ 1100) }
{
    let accepting = [0u8; 65536];
    let from = [0u16; 1];
    let letter = [0u8; 1];
    let to = [0u16; 1];
    let mut current = [7u64; 1100];
    let mut next = [7u64; 1100];
    let columns = Arcs {
        from: &from,
        letter: &letter,
        to: &to,
    };
    let automaton = Automaton {
        states,
        accepting: &accepting,
        arc_count: 0,
        arcs: columns,
    };
    let mut work = Work {
        current: &mut current[..words],
        next: &mut next[..more],
    };
    show(matcher::judge(automaton, b"", &mut work));
}

pub(crate) fn all() {
    two_states(2, 1, 1, &[0], b'a', 1, b"");
    two_states(2, 1, 1, &[0], b'a', 1, b"a");
    two_states(2, 1, 1, &[0], b'a', 1, b"b");
    two_states(2, 1, 1, &[0], b'a', 1, b"aa");
    two_states(2, 0, 1, &[0], 255, 1, &[255]);
    two_states(2, 1, 1, &[0], b'a', 1, &[0]);
    two_states(2, 1, 1, &[0, 0], b'a', 1, b"a");
    two_states(0, 1, 0, &[0], b'a', 0, b"");
    two_states(3, 1, 1, &[0], b'a', 1, b"");
    two_states(2, 2, 1, &[0], b'a', 1, b"");
    two_states(2, 1, 2, &[0], b'a', 1, b"");
    two_states(2, 1, 1, &[2], b'a', 1, b"");
    two_states(2, 1, 1, &[0], b'a', 2, b"");
    two_states(2, 1, 1, &[0], 0, 1, b"");
    no_arc(65535, 1024, 1024);
    no_arc(65536, 1024, 1024);
    no_arc(64, 1, 1);
    no_arc(64, 0, 1);
    no_arc(64, 1, 0);
    no_arc(65, 2, 2);
    no_arc(65, 1, 2);
    no_arc(65, 2, 1);
    no_arc(65535, 1023, 1024);
    no_arc(65535, 1100, 1024);
}
