// "a stored time is above 2^40 + 1,000,000": a base, an active, a saved deadline or a last release.
ghost use Rattle.std.specs.Prelude.{◌≡◌, get_or};
ghost use Rattle.numbers.specs.Any.{any_below};
ghost use Rattle.table.specs.Limits.{most_held};
ghost use Rattle.torn.specs.Torn.{too_late, row_too_late, torn_times};

use machine::{Job, Kept};
use table::limits::{MOST_HELD, MOST_STORED};

fn too_late(time: u64) -> bool
    ensures { result ≡ too_late time }
{
    MOST_STORED < time
}

fn saved_too_late(saved: &[u64; MOST_HELD]) -> bool
    ensures { result ≡ any_below most_held (λ k. too_late (get_or saved.now k 0)) }
{
    saved.iter().any(|time| too_late(*time))
}

fn row_too_late(job: &Job) -> bool
    ensures { result ≡ row_too_late job.now }
{
    too_late(job.base) || too_late(job.active) || saved_too_late(&job.saved) || too_late(job.last)
}

// "Stored times are judged in every row, used or not"
pub(crate) fn stored_too_late(kept: &Kept) -> bool
    ensures { result ≡ torn_times kept.now }
{
    kept.rows.iter().any(row_too_late)
}
