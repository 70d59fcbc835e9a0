// A text to its automaton and to the verdicts on records, as the programs make them.

#![tactic(auto)]

pub mod totals;

ghost use Rattle.std.specs.Prelude.{◌≡◌, length, get_or, eqb, MatchResult};
ghost use Rattle.theory.specs.Kind as numbers;
ghost use Rattle.theory.specs.Below.{count_below};
ghost use Rattle.theory.specs.Record.{LongEnough};
ghost use Rattle.columns.specs.Arcs.{lent_arcs, SameArcs};
ghost use Rattle.columns.specs.Table.{read_table};
ghost use Rattle.columns.specs.Work.{lent_work, SameWork};
ghost use Rattle.builder.specs.Answer.{answer as counted};
ghost use Rattle.matcher.specs.Answer.{values as judged};
ghost use Rattle.matcher.specs.Automaton.{handed_over};
ghost use Rattle.site.specs.Site.{shown, blank, BuiltBeside, Made};
ghost use Rattle.site.specs.Values.{values};
ghost use Rattle.site.specs.Sited.{Sited, JudgedOver, JudgesText};

use builder::Counts;
use columns::arcs::ArcsMut;
use columns::states::StatesMut;
use columns::table::{Table, TableMut};
use columns::work::Work;
use matcher::Verdict;
use matcher::automaton::Automaton;
use theory::kind::Kind;
use theory::refusal::Refusal;

// 01: "Both have rooms of 512 entries, 1,024 expressions, 512 states, 4,096 arcs." The same numbers stand under the same names in
// theory's specs/Rooms.antt.
pub const ENTRIES: usize = 512;

pub const EXPRESSIONS: usize = 1024;

pub const STATES: usize = 512;

pub const ARCS: usize = 4096;

// What a text is built into. Letters are counted with repeats.
#[derive(Clone, Copy, PartialEq, Eq)]
pub struct Site {
    pub entries: usize,
    pub letters: usize,
    pub states: usize,
    pub expressions: usize,
    pub arcs: usize,
}

// The automaton of a written expression: read, and built where it is read. Entries are looked at by no program, and are not lent.
pub fn automaton(text: &[u8], accepting: &mut [u8], arcs: &mut ArcsMut<'_>) -> Result<Site, Refusal>
    ensures same { SameArcs arcs.old arcs.new }
    ensures made { Made text.now (shown accepting.old (lent_arcs arcs.old)) (values result)
        (shown accepting.new (lent_arcs arcs.new)) }
{
    let mut kind = [0u8; ENTRIES];
    let mut left = [0u16; ENTRIES];
    let mut right = [0u16; ENTRIES];
    let mut table = TableMut {
        kind: &mut kind,
        left: &mut left,
        right: &mut right,
    };
    let entries = match reader::read(text, &mut table) {
        Ok(entries) => entries,
        Err(unread) => {
            clear(accepting, arcs);
            return Err(unread);
        }
    };
    let read = table.view().first(entries);
    let counts = build(read, accepting, arcs)?;
    Ok(Site {
        entries,
        letters: letters(read.kind),
        states: counts.states,
        expressions: counts.expressions,
        arcs: counts.arcs,
    })
}

// The automaton of a table. Expressions and what the states name are looked at by no program, and are not lent; the rooms for arcs are the
// columns' own.
fn build(given: Table<'_>, accepting: &mut [u8], arcs: &mut ArcsMut<'_>) -> Result<Counts, Refusal>
    ensures same { SameArcs arcs.old arcs.new }
    ensures built { BuiltBeside (read_table given.entry) (shown accepting.old (lent_arcs arcs.old)) (counted result)
        (shown accepting.new (lent_arcs arcs.new)) }
{
    let mut kind = [0u8; EXPRESSIONS];
    let mut left = [0u16; EXPRESSIONS];
    let mut right = [0u16; EXPRESSIONS];
    let mut expression = [0u16; STATES];
    let mut rows = TableMut {
        kind: &mut kind,
        left: &mut left,
        right: &mut right,
    };
    let mut states = StatesMut {
        expression: &mut expression,
        accepting,
    };
    builder::build(given, &mut rows, &mut states, arcs)
}

// 01: "sets all lent output and work columns to zero".
fn clear(accepting: &mut [u8], arcs: &mut ArcsMut<'_>)
    ensures same { SameArcs arcs.old arcs.new }
    ensures cleared { shown accepting.new (lent_arcs arcs.new) ≡ blank (shown accepting.old (lent_arcs arcs.old)) }
{
    accepting.fill(0);
    arcs.clear();
}

// 2026-01: the entries that are letters.
fn letters(kind: &[u8]) -> usize
    ensures { result ≡ count_below (length kind.now) (λ i. eqb (get_or kind.now i 0) numbers.letter) }
{
    let letter = Kind::Letter.number();
    kind.iter().filter(|k| **k == letter).count()
}

// A record over the automaton that a text was made into.
pub fn verdict(
    text: &[u8],
    automaton: Automaton<'_>,
    record: &[u8],
    work: &mut Work<'_>,
) -> Result<Verdict, Refusal>
    requires sited { Sited text.now (handed_over automaton) }
    requires long_enough { LongEnough (lent_work work.old) automaton.states }
    ensures same { SameWork work.old work.new }
    ensures judged { JudgedOver text.now «record».now (lent_work work.old) (judged result) (lent_work work.new) }
{
    matcher::judge(automaton, record, work)
}

// The three calls as one: from a text and a record to the verdict. 11 counts against the lent work columns.
pub fn judge<'a>(
    text: &[u8],
    record: &[u8],
    accepting: &'a mut [u8],
    arcs: &'a mut ArcsMut<'_>,
    work: &mut Work<'_>,
) -> Result<Verdict, Refusal>
    ensures same_arcs { SameArcs arcs.old arcs.new }
    ensures same_work { SameWork work.old work.new }
    ensures judged { JudgesText text.now «record».now (shown accepting.old (lent_arcs arcs.old)) (lent_work work.old)
        (judged result) (shown accepting.new (lent_arcs arcs.new)) (lent_work work.new) }
{
    let site = match automaton(text, accepting, arcs) {
        Ok(site) => site,
        Err(refusal) => {
            work.clear();
            return Err(refusal);
        }
    };
    let automaton = Automaton {
        states: site.states,
        accepting,
        arc_count: site.arcs,
        arcs: arcs.view(),
    };
    let answer = matcher::judge(automaton, record, work);
    settle(answer, accepting, arcs)
}

// The matcher's answer, and nothing lent where it is a refusal.
fn settle(
    answer: Result<Verdict, Refusal>,
    accepting: &mut [u8],
    arcs: &mut ArcsMut<'_>,
) -> Result<Verdict, Refusal>
    ensures same { SameArcs arcs.old arcs.new }
    ensures answers { result ≡ answer }
    ensures leaves { MatchResult result
        (λ v. shown accepting.new (lent_arcs arcs.new) ≡ shown accepting.old (lent_arcs arcs.old))
        (λ r. shown accepting.new (lent_arcs arcs.new) ≡ blank (shown accepting.old (lent_arcs arcs.old))) }
{
    match answer {
        Ok(verdict) => Ok(verdict),
        Err(refusal) => {
            clear(accepting, arcs);
            Err(refusal)
        }
    }
}
