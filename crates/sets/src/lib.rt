// Sets of numbers in 64-bit words, one bit per number.

#![tactic(auto)]

ghost use Rattle.std.specs.Prelude.{◌≡◌, false, cond, ◌||◌, ℕ, ◌*◌, ◌/◌, ◌≤◌, ◌<◌, length, eqb, ltb};
ghost use Rattle.theory.specs.Limit.{most_states};
ghost use Rattle.theory.specs.Below.{some_below, count_below};
ghost use Rattle.theory.specs.Record.{words};
ghost use Rattle.sets.specs.Bits.{bit};

// 01: "the state count divided by 64, rounded up".
pub fn words(states: usize) -> usize
    requires { states ≤ most_states }
    ensures { result ≡ words states }
{
    states.div_ceil(64)
}

#[tactic(auto, unfolding(crate::specs::Bits::bit, crate::specs::Bits::digit))]
pub fn marked(words: &[u64], number: usize) -> bool
    requires { number / 64 < length words.now }
    ensures { result ≡ bit words.now number }
{
    (words[number / 64] >> (number % 64)) % 2 == 1
}

pub fn mark(words: &mut [u64], number: usize)
    requires { number / 64 < length words.old }
    ensures { (t : ℕ) → bit words.new t ≡ (bit words.old t || eqb t number) }
{
    let word = number / 64;
    words[word] |= 1u64 << (number % 64);
}

// The set bits of the first n words. 1,024 words hold every state that 01 allows.
pub fn count(n: usize, words: &[u64]) -> usize
    requires { (n ≤ length words.now) × (n ≤ 1024) }
    ensures { result ≡ count_below (n * 64) (bit words.now) }
{
    words[..n]
        .iter()
        .map(|word| word.count_ones() as usize)
        .sum()
}

// The first n words of `next` are handed to `current` and cleared. The answer: whether one of their bits was set.
pub fn turn(n: usize, current: &mut [u64], next: &mut [u64]) -> bool
    requires { (n ≤ length current.old) × (n ≤ length next.old) }
    ensures handed { (t : ℕ) → bit current.new t ≡ cond (ltb (t / 64) n) (bit next.old t) (bit current.old t) }
    ensures cleared { (t : ℕ) → bit next.new t ≡ cond (ltb (t / 64) n) false (bit next.old t) }
    ensures set { result ≡ some_below (n * 64) (bit next.old) }
{
    let mut any = false;
    for i in 0..n {
        let word = next[i];
        any |= word != 0;
        current[i] = word;
        next[i] = 0;
    }
    any
}
