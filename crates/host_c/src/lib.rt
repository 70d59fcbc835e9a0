// The calls for C by their names in include/gumpaleri.h. Each is the function of the crate host that has the same name, under the same clauses.

#![tactic(auto)]

ghost use Rattle.theory.specs.Table.{table};
ghost use Rattle.theory.specs.Arcs.{arc_columns};
ghost use Rattle.theory.specs.Build.{lent};
ghost use Rattle.theory.specs.Record.{handed, work};
ghost use Rattle.host.specs.Host.{HostReads, HostBuilds, HostJudges};

#[unsafe(no_mangle)]
pub extern "C" fn gumpaleri_read(
    text: &[u8],
    kind: &mut [u8],
    left: &mut [u16],
    right: &mut [u16],
    counts: &mut [u64],
) -> u64
    ensures { HostReads text.now (table kind.old left.old right.old) counts.old result
        (table kind.new left.new right.new) counts.new }
{
    host::gumpaleri_read(text, kind, left, right, counts)
}

#[unsafe(no_mangle)]
pub extern "C" fn gumpaleri_build(
    kind: &[u8],
    left: &[u16],
    right: &[u16],
    xkind: &mut [u8],
    xleft: &mut [u16],
    xright: &mut [u16],
    expression: &mut [u16],
    accepting: &mut [u8],
    from: &mut [u16],
    letter: &mut [u8],
    to: &mut [u16],
    counts: &mut [u64],
) -> u64
    ensures { HostBuilds (table kind.now left.now right.now)
        (lent (table xkind.old xleft.old xright.old) expression.old accepting.old
        (arc_columns from.old letter.old to.old))
        counts.old result
        (lent (table xkind.new xleft.new xright.new) expression.new accepting.new
        (arc_columns from.new letter.new to.new))
        counts.new }
{
    host::gumpaleri_build(
        kind, left, right, xkind, xleft, xright, expression, accepting, from, letter, to, counts,
    )
}

#[unsafe(no_mangle)]
pub extern "C" fn gumpaleri_judge(
    states: usize,
    accepting: &[u8],
    arcs: usize,
    from: &[u16],
    letter: &[u8],
    to: &[u16],
    record: &[u8],
    current: &mut [u64],
    next: &mut [u64],
    counts: &mut [u64],
) -> u64
    ensures { HostJudges (handed states accepting.now arcs (arc_columns from.now letter.now to.now))
        «record».now (work current.old next.old) counts.old result
        (work current.new next.new) counts.new }
{
    host::gumpaleri_judge(
        states, accepting, arcs, from, letter, to, record, current, next, counts,
    )
}
