// The timing verdict of document 01, "The verdict": whether demand plus blocking stays within every length t of time, without end.
#![tactic(auto)]

ghost use Rattle.std.specs.Prelude.{◌≡◌};
ghost use Rattle.verdict.specs.Verdict.{number_in, value_in};
ghost use Rattle.verdict.specs.Said.{verdict_said};

use numbers::answers::{FITS, HEAVY, LATE, LONG};

pub mod euclid;
pub mod judge;
mod search;
mod sound;
mod times;
mod work;

// What is said of a table that passes the check: one of document 01's four answers.
#[derive(Clone, Copy, Debug, PartialEq, Eq)]
pub enum Verdict {
    Fits,
    Late(u64),
    Heavy,
    Long,
}

impl Verdict {
    // Document 01's number, 20 to 23.
    pub fn number(self) -> u32
        ensures { result ≡ number_in (verdict_said (Ok self)) }
    {
        match self {
            Verdict::Fits => FITS,
            Verdict::Late(_) => LATE,
            Verdict::Heavy => HEAVY,
            Verdict::Long => LONG,
        }
    }

    // What goes with the number: LATE's t, or 0. 0 and not None: `value_in` holds it.
    pub fn value(self) -> u64
        ensures { result ≡ value_in (verdict_said (Ok self)) }
    {
        match self {
            Verdict::Late(t) => t,
            Verdict::Fits | Verdict::Heavy | Verdict::Long => 0,
        }
    }
}
