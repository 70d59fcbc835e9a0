// 2026-01: "lines built, the sum of their states, and, for built lines with m at most 10 alone, the sums of 2^m and of states".

ghost use Rattle.std.specs.Prelude.{◌≡◌};
ghost use Rattle.site.specs.Values.{values as reported};
ghost use Rattle.site.specs.Totals.{values, of_one, with_report, Fits, HasEntry};

use crate::Site;
use theory::refusal::Refusal;

#[derive(Clone, Copy, PartialEq, Eq, Default)]
pub struct Totals {
    pub built: u64,
    pub states: u64,
    pub powers: u64,
    pub few: u64,
}

pub fn none() -> Totals
    ensures { values result ≡ record { built = 0; states = 0; powers = 0; few = 0 } }
{
    Totals::default()
}

// "m at most 10"
const SMALL: usize = 10;

// What one text adds.
fn of_one(site: Result<Site, Refusal>) -> Totals
    requires { HasEntry (reported site) }
    ensures { values result ≡ of_one (reported site) }
{
    let Ok(site) = site else {
        return none();
    };
    let states = site.states as u64;
    if site.letters > SMALL {
        return Totals {
            built: 1,
            states,
            ..none()
        };
    }
    Totals {
        built: 1,
        states,
        powers: 1u64 << site.letters,
        few: states,
    }
}

impl Totals {
    // The totals with what one more text came to.
    pub fn with(self, site: Result<Site, Refusal>) -> Totals
        requires { HasEntry (reported site) × Fits (with_report (values self) (reported site)) }
        ensures { values result ≡ with_report (values self) (reported site) }
    {
        let one = of_one(site);
        Totals {
            built: self.built + one.built,
            states: self.states + one.states,
            powers: self.powers + one.powers,
            few: self.few + one.few,
        }
    }
}
