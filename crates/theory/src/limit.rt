// The limits of 01. The same numbers stand under the same names in specs/Limit.antt.

// "A table has 1 to 512 entries."
pub const ENTRIES: usize = 512;
// "The text has at most 4,096 bytes, at most 64 parentheses open at once."
pub const TEXT: usize = 4096;

pub const OPEN: usize = 64;
// "Rooms: table length, or 65,535 for expressions and states and 16,777,216 for arcs if that is smaller."
pub const EXPRESSIONS: usize = 65535;

pub const STATES: usize = 65535;

pub const ARCS: usize = 16777216;
// A letter is "1 to 255".
pub const LETTER: u16 = 255;
// 2026-01, refusal 22: "more than 100,000 lines".
pub const LINES: u64 = 100000;
