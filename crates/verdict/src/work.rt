// The work that a table asks for: HEAVY's sum, the demand h(t), and the largest D (document 01, "The verdict"), all from the tasks' times.
ghost use Rattle.std.specs.Prelude.{◌+◌, ◌≤◌, ◌≡◌, length, map};
ghost use Rattle.table.specs.Limits.{most_tasks, most_ticks, most_multiple};
ghost use Rattle.verdict.specs.Demand.{demand_sum};
ghost use Rattle.verdict.specs.Verdict.{load_of, largest as largestOf};
ghost use Rattle.verdict.specs.Times.{timed};

use crate::times::Times;

// "the sum of C * P / T"
#[tactic(auto, using(crate::proofs::Sums::load_of_times))]
pub(crate) fn load(times: &[Times], p: u64) -> u64
    requires few { length times.now ≤ most_tasks }
    requires near { p ≤ most_multiple }
    ensures { result ≡ load_of p (map timed times.now) }
{
    times.iter().map(|task| task.load(p)).sum()
}

// h(t)
#[tactic(auto, using(crate::proofs::Sums::demand_of_times))]
pub(crate) fn demand(times: &[Times], t: u64) -> u64
    requires few { length times.now ≤ most_tasks }
    requires near { t ≤ most_multiple + most_ticks }
    ensures { result ≡ demand_sum (map timed times.now) t }
{
    times.iter().map(|task| task.demand(t)).sum()
}

// The largest D.
pub(crate) fn largest(times: &[Times]) -> u64
    ensures { result ≡ largestOf (map timed times.now) }
{
    times.iter().map(|task| task.deadline).max().unwrap_or(0)
}
