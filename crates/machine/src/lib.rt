// The machine of document 01, "The machine's rules": what is kept of a job and of the whole, and who runs.
#![tactic(auto)]

pub mod places; // places.rt: where a state's numbers stand

ghost use Rattle.std.specs.Prelude.{◌≡◌};
ghost use Rattle.machine.specs.Order.{who_runs};

use table::limits::{MOST_HELD, MOST_TASKS, TASKS};

// What is kept for a task: its job's numbers, all zero where it has none, and the task's last accepted release.
#[derive(Clone, Copy)]
pub struct Job {
    pub base: u64,
    pub active: u64,
    pub number: u64,
    pub place: u32,
    pub saved: [u64; MOST_HELD],
    pub last: u64,
}

// Everything that changes: the clock, the count of accepted releases, which jobs are ready, which tasks have had a release, and a row a task.
// Two sets, and no Option in a row: "A set of tasks or resources is one unsigned number", and TORN judges every row, used or not.
#[derive(Clone, Copy)]
pub struct Kept {
    pub clock: u64,
    pub count: u64,
    pub ready: u32,
    pub had: u32,
    pub rows: [Job; TASKS],
}

// "The running job is the ready one with the earliest active deadline. Among equals it is the one whose release was accepted first (000, 2.1)."
pub fn who_runs(kept: Kept) -> Option<u32>
    ensures { result ≡ who_runs kept }
{
    // No plainer by `sets::members`: a state that is made up may have members from sixteen on, so a filter would stand in place of this one.
    (0..MOST_TASKS)
        .filter(|&i| sets::has(kept.ready, i))
        .min_by_key(|&i| {
            let row = &kept.rows[i as usize];
            (row.active, row.number)
        })
}
