// What a move does to a job's row and to what is kept, one thing a function (document 01, "The machine's rules"). Only the fields that change are named.
ghost use Rattle.std.specs.Prelude.{◌≡◌, ◌+◌, ◌<◌, ◌^◌};
ghost use Rattle.table.specs.Limits.{most_tasks, most_held};
ghost use Rattle.machine.specs.Fields.{with_clock, with_row};
ghost use Rattle.machine.specs.Machine.{fresh as fresh_of, new_job, no_job_since, lowered, restored, lateness};

use machine::{Job, Kept};
use numbers::lesser;
use table::limits::{MOST_HELD, TASKS};

// "A finish answers the lateness: time minus base deadline, signed." Both are below 2^41, so either is as a signed number what it was.
pub(crate) fn late(time: u64, base: u64) -> i64
    requires { (time < 2 ^ 41) × (base < 2 ^ 41) }
    ensures { result ≡ lateness time base }
{
    (time as i64) - (base as i64)
}

// A task's row with no job: "A finish sets the job's numbers to zero, all but the task's last release."
pub(crate) fn no_job(last: u64) -> Job
    ensures { result ≡ no_job_since last }
{
    Job {
        base: 0,
        active: 0,
        number: 0,
        place: 0,
        saved: [0; MOST_HELD],
        last,
    }
}

// "A fresh state has clock 0, no jobs and no releases."
pub(crate) fn fresh() -> Kept
    ensures { result ≡ fresh_of }
{
    let none = no_job(0);
    Kept {
        clock: 0,
        count: 0,
        ready: 0,
        had: 0,
        rows: [none; TASKS],
    }
}

// "A release of task i at time t makes a job": its row.
pub(crate) fn new_job(deadline: u64, number: u64, time: u64) -> Job
    ensures { result ≡ new_job deadline number time }
{
    Job {
        base: deadline,
        active: deadline,
        number,
        ..no_job(time)
    }
}

// "A lock at time t sets the active deadline to the smaller of its present value and t + floor." The value from before goes into the slot of its depth.
pub(crate) fn lower(job: &Job, depth: usize, deadline: u64) -> Job
    requires { (depth < most_held) × (job.now.place + 1 < 2 ^ 32) }
    ensures { result ≡ lowered depth deadline job.now }
{
    let mut saved = job.saved;
    saved[depth] = job.active;
    Job {
        active: lesser(job.active, deadline),
        place: job.place + 1,
        saved,
        ..*job
    }
}

// "The unlock brings back the value from before that lock." Its slot is free again.
pub(crate) fn restore(job: &Job, slot: usize) -> Job
    requires { (slot < most_held) × (job.now.place + 1 < 2 ^ 32) }
    ensures { result ≡ restored slot job.now }
{
    let mut saved = job.saved;
    saved[slot] = 0;
    Job {
        active: job.saved[slot],
        place: job.place + 1,
        saved,
        ..*job
    }
}

// One row changed. "An accepted event sets the clock to its time."
pub(crate) fn with_row(kept: &Kept, time: u64, task: u32, job: Job) -> Kept
    requires { task < most_tasks }
    ensures { result ≡ with_clock time (with_row task job kept.now) }
{
    let mut rows = kept.rows;
    rows[task as usize] = job;
    Kept {
        clock: time,
        rows,
        ..*kept
    }
}
