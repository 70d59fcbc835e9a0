// 2026-02: reader, builder and matcher for C, on numbers and slices. The crate host_c exports the same functions, and include/gumpaleri.h has them.

#![tactic(auto)]

ghost use Rattle.std.specs.Prelude.{◌≡◌, ◌≤◌, ◌<◌, length};
ghost use Rattle.theory.specs.Stated.{stated};
ghost use Rattle.theory.specs.Refusal.{success};
ghost use Rattle.theory.specs.Column.{zeros, filled};
ghost use Rattle.theory.specs.Table.{table};
ghost use Rattle.theory.specs.Arcs.{arc_columns};
ghost use Rattle.theory.specs.Build.{lent};
ghost use Rattle.theory.specs.Record.{handed, work};
ghost use Rattle.matcher.specs.Answer.{said};
ghost use Rattle.host.specs.Host.{packed, numbers_of, HostReads, HostBuilds, HostJudges};

use columns::arcs::{Arcs, ArcsMut};
use columns::states::StatesMut;
use columns::table::{Table, TableMut};
use columns::work::Work;
use matcher::Verdict;
use matcher::automaton::Automaton;
use theory::refusal::{Cause, Refusal};

// "23, that slice has fewer than 4 numbers"
const COUNTS: usize = 4;

const COUNTS_FEW: Refusal = Refusal {
    cause: Cause::CountsFew,
    place: 0,
};

// "receives the counts .. with zero in the rest". 01: "Success is 0 with place 0."
fn told(counts: &mut [u64], values: &[u64]) -> u64
    requires { length values.now ≤ length counts.old }
    ensures { (result ≡ packed success) × (counts.new ≡ filled (length counts.old) values.now) }
{
    counts.fill(0);
    counts[..values.len()].copy_from_slice(values);
    0
}

// A refusal has no count; it is "number times 2^32 plus place".
fn refused(counts: &mut [u64], refusal: Refusal) -> u64
    requires { refusal.place < 4294967296 }
    ensures { (result ≡ packed (stated refusal)) × (counts.new ≡ zeros (length counts.old)) }
{
    told(counts, &[]);
    refusal.cause.number() as u64 * 4294967296 + refusal.place as u64
}

// "the verdict (1 accepted, 2 unfinished, 3 wrong), its place (0 unless wrong) and live"
fn numbers(verdict: Verdict) -> [u64; 3]
    ensures { result ≡ numbers_of (said verdict) }
{
    match verdict {
        Verdict::Accepted { live } => [1, 0, live as u64],
        Verdict::Unfinished { live } => [2, 0, live as u64],
        Verdict::Wrong { place } => [3, place as u64, 0],
    }
}

#[tactic(auto, using(crate::proofs::Hosting::reads_place))]
pub fn gumpaleri_read<'a>(
    text: &[u8],
    kind: &'a mut [u8],
    left: &'a mut [u16],
    right: &'a mut [u16],
    counts: &mut [u64],
) -> u64
    ensures { HostReads text.now (table kind.old left.old right.old) counts.old result
        (table kind.new left.new right.new) counts.new }
{
    let mut table = TableMut { kind, left, right };
    if counts.len() < COUNTS {
        table.clear();
        return refused(counts, COUNTS_FEW);
    }
    match reader::read(text, &mut table) {
        Ok(entries) => told(counts, &[entries as u64]),
        Err(refusal) => refused(counts, refusal),
    }
}

#[tactic(auto, using(crate::proofs::Hosting::no_counts))]
pub fn gumpaleri_build<'a>(
    kind: &'a [u8],
    left: &'a [u16],
    right: &'a [u16],
    xkind: &'a mut [u8],
    xleft: &'a mut [u16],
    xright: &'a mut [u16],
    expression: &'a mut [u16],
    accepting: &'a mut [u8],
    from: &'a mut [u16],
    letter: &'a mut [u8],
    to: &'a mut [u16],
    counts: &mut [u64],
) -> u64
    ensures { HostBuilds (table kind.now left.now right.now)
        (lent (table xkind.old xleft.old xright.old) expression.old accepting.old
        (arc_columns from.old letter.old to.old))
        counts.old result
        (lent (table xkind.new xleft.new xright.new) expression.new accepting.new
        (arc_columns from.new letter.new to.new))
        counts.new }
{
    let mut rows = TableMut {
        kind: xkind,
        left: xleft,
        right: xright,
    };
    let mut states = StatesMut {
        expression,
        accepting,
    };
    let mut arcs = ArcsMut { from, letter, to };
    if counts.len() < COUNTS {
        builder::clear(&mut rows, &mut states, &mut arcs);
        return refused(counts, COUNTS_FEW);
    }
    let given = Table { kind, left, right };
    match builder::build(given, &mut rows, &mut states, &mut arcs) {
        Ok(n) => told(
            counts,
            &[n.states as u64, n.expressions as u64, n.arcs as u64],
        ),
        Err(refusal) => refused(counts, refusal),
    }
}

#[tactic(auto, using(crate::proofs::Hosting::no_counts))]
pub fn gumpaleri_judge<'a>(
    states: usize,
    accepting: &'a [u8],
    arcs: usize,
    from: &'a [u16],
    letter: &'a [u8],
    to: &'a [u16],
    record: &[u8],
    current: &'a mut [u64],
    next: &'a mut [u64],
    counts: &mut [u64],
) -> u64
    ensures { HostJudges (handed states accepting.now arcs (arc_columns from.now letter.now to.now))
        «record».now (work current.old next.old) counts.old result
        (work current.new next.new) counts.new }
{
    let mut work = Work { current, next };
    if counts.len() < COUNTS {
        work.clear();
        return refused(counts, COUNTS_FEW);
    }
    let columns = Arcs { from, letter, to };
    let automaton = Automaton {
        states,
        accepting,
        arc_count: arcs,
        arcs: columns,
    };
    match matcher::judge(automaton, record, &mut work) {
        Ok(verdict) => told(counts, &numbers(verdict)),
        Err(refusal) => refused(counts, refusal),
    }
}
