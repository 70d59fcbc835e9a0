// 01, "Refusal numbers": the causes of refusal, and a refusal with its place. specs/Refusal.antt has the numbers under the same names.

ghost use Rattle.std.specs.Prelude.{◌≡◌};
ghost use Rattle.theory.specs.Stated.{number};

// Each with its number.
#[derive(Clone, Copy, PartialEq, Eq)]
pub enum Cause {
    ColumnsDiffer = 1,
    TableEmpty = 2,
    TableLong = 3,
    KindUnknown = 4,
    FieldOutside = 5,
    ChildNotSmaller = 6,
    EmptyLanguageInside = 7,
    NotNamedOnce = 8,
    RoomSmall = 9,
    AutomatonMalformed = 10,
    WorkShort = 11,
    TextLong = 12,
    NotGrammar = 13,
    TooDeep = 14,
    TooManyEntries = 15,
    // The records program's own: no library call gives it.
    RecordLong = 16,
    // The room report's own.
    LinesMany = 22,
    // The host's: the slice for the counts has fewer than 4 numbers.
    CountsFew = 23,
}

impl Cause {
    pub fn number(self) -> u8
        ensures { result ≡ number self }
    {
        self as u8
    }
}

// 01: "A refusal returns its number and place".
#[derive(Clone, Copy, PartialEq, Eq)]
pub struct Refusal {
    pub cause: Cause,
    pub place: usize,
}
