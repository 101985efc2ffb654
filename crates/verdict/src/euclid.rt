// P, the least common multiple of the periods, "reached through Euclid's rule" (document 01, "The verdict").
ghost use Rattle.std.specs.Prelude.{◌≡◌, map};
ghost use Rattle.verdict.specs.Multiple.{divisor_of, multiple_with, limited};
ghost use Rattle.verdict.specs.Times.{timed};

use crate::times::Times;
use table::limits::MOST_MULTIPLE;

// The greatest common divisor, which std has not: Euclid's rule, the remainder falling at each call.
#[tactic(auto, using(crate::proofs::Divisor::divisor_zero, crate::proofs::Divisor::divisor_rest))]
pub fn gcd(a: u64, b: u64) -> u64
    ensures { result ≡ divisor_of a b }
{
    if b == 0 {
        return a;
    }
    gcd(b, a % b)
}

// P of tasks with these times, where it is at most 1,000,000: it is left as soon as it passes the limit, since what is reached divides P.
#[tactic(auto, using(crate::proofs::Reached::passed))]
pub(crate) fn multiple(times: &[Times]) -> Option<u64>
    ensures { result ≡ limited (multiple_with 1 (map timed times.now)) }
{
    let mut p: u64 = 1;
    for task in times {
        p = p / gcd(p, task.period) * task.period;
        if p > MOST_MULTIPLE {
            return None;
        }
    }
    Some(p)
}
