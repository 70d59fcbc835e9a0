// 01, "The expression table": the kinds. specs/Table.antt has what each means, and specs/Kind.antt the numbers under the same names.

ghost use Rattle.std.specs.Prelude.{◌≡◌};
ghost use Rattle.theory.specs.Table.{meaning};
ghost use Rattle.theory.specs.Meant.{meant, kind_number};

// 01: "sign `+`, `.` or `&`".
#[derive(Clone, Copy, PartialEq, Eq)]
pub enum Sign {
    Union,
    Concatenation,
    Shuffle,
}

#[derive(Clone, Copy, PartialEq, Eq)]
pub enum Kind {
    EmptyLanguage,
    EmptyWord,
    Letter,
    Sign(Sign),
    Star,
}

impl Kind {
    // The kind that a number of the kind column names; any other number is of an "unknown kind".
    #[tactic(auto, unfolding(crate::specs::Table::meaning))]
    pub fn of(number: u8) -> Option<Kind>
        ensures { meaning number ≡ meant result }
    {
        match number {
            0 => Some(Kind::EmptyLanguage),
            1 => Some(Kind::EmptyWord),
            2 => Some(Kind::Letter),
            3 => Some(Kind::Sign(Sign::Union)),
            4 => Some(Kind::Sign(Sign::Concatenation)),
            5 => Some(Kind::Sign(Sign::Shuffle)),
            6 => Some(Kind::Star),
            _ => None,
        }
    }

    pub fn number(self) -> u8
        ensures { result ≡ kind_number self }
    {
        match self {
            Kind::EmptyLanguage => 0,
            Kind::EmptyWord => 1,
            Kind::Letter => 2,
            Kind::Sign(Sign::Union) => 3,
            Kind::Sign(Sign::Concatenation) => 4,
            Kind::Sign(Sign::Shuffle) => 5,
            Kind::Star => 6,
        }
    }
}
