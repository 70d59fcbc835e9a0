// What the reader answers at each of 01's limits, a line each: number, place, entries.

ghost use Rattle.std.specs.Prelude.{◌≤◌};

use super::lines::line;
use arrayvec::{ArrayVec, CapacityError};
use columns::table::TableMut;

// One byte more than a text may have.
type Text = ArrayVec<u8, 4097>;

// With columns of these lengths.
fn read(text: &[u8], k: usize, l: usize, r: usize)
    requires { (k ≤ 600) × (l ≤ 600) × (r ≤ 600) }
{
    let mut kind = [0u8; 600];
    let mut left = [0u16; 600];
    let mut right = [0u16; 600];
    let mut table = TableMut {
        kind: &mut kind[..k],
        left: &mut left[..l],
        right: &mut right[..r],
    };
    match reader::read(text, &mut table) {
        Ok(entries) => line(&[0, 0, entries]),
        Err(refusal) => line(&[refusal.cause.number() as usize, refusal.place, 0]),
    }
}

// With stars after it, until it has n bytes.
fn starred(mut text: Text, n: usize) -> Result<(), CapacityError> {
    for _ in text.len()..n {
        text.try_extend_from_slice(b"*")?;
    }
    read(&text, 512, 512, 512);
    Ok(())
}

// `a` under stars, n bytes in all.
fn stars(n: usize) -> Result<(), CapacityError> {
    let mut text = Text::new();
    text.try_extend_from_slice(b"a")?;
    starred(text, n)
}

// n open parentheses around `a`, and what closes them.
fn parentheses(n: usize) -> Result<(), CapacityError> {
    let mut text = Text::new();
    for _ in 0..n {
        text.try_extend_from_slice(b"(")?;
    }
    text.try_extend_from_slice(b"a")?;
    for _ in 0..n {
        text.try_extend_from_slice(b"+b)")?;
    }
    read(&text, 512, 512, 512);
    Ok(())
}

// `(x+x)` of the text x.
fn doubled(x: &[u8]) -> Result<Text, CapacityError> {
    let mut text = Text::new();
    text.try_extend_from_slice(b"(")?;
    text.try_extend_from_slice(x)?;
    text.try_extend_from_slice(b"+")?;
    text.try_extend_from_slice(x)?;
    text.try_extend_from_slice(b")")?;
    Ok(text)
}

// A balanced tree of 256 letters, 511 entries in 1,021 bytes, under stars, n bytes in all.
fn balanced(n: usize) -> Result<(), CapacityError> {
    let mut text = Text::new();
    text.try_extend_from_slice(b"a")?;
    for _ in 0..8 {
        text = doubled(&text)?;
    }
    starred(text, n)
}

pub(crate) fn all() -> Result<(), CapacityError> {
    read(b"", 512, 512, 512);
    read(b"(a)", 512, 512, 512);
    read(b"0*", 512, 512, 512);
    read(b"(a&b&c)", 512, 512, 512);
    stars(512)?;
    stars(513)?;
    stars(4096)?;
    stars(4097)?;
    parentheses(64)?;
    parentheses(65)?;
    balanced(1022)?;
    balanced(1023)?;
    read(b"a", 0, 0, 0);
    read(b"a", 1, 1, 1);
    read(b"a*", 1, 1, 1);
    read(b"a", 1, 2, 3);
    read(b"a", 2, 2, 3);
    read(b"a", 600, 600, 600);
    Ok(())
}
