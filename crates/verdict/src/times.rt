// T, D and C of the tasks, read off the words once, so that the sums of document 01's "The verdict" go over them and over no word.
ghost use Rattle.std.specs.Prelude.{◌≤◌};
ghost use Rattle.table.specs.Limits.{most_ticks};

use crate::sound::Sound;
use table::limits::TASKS;

// "T, D, C, each | 1 | 1,000,000" of one task.
#[derive(Clone, Copy)]
pub(crate) struct Times {
    pub(crate) period: u64,
    pub(crate) deadline: u64,
    pub(crate) cost: u64,
    ghost period_least: { 1 ≤ period },
    ghost period_most: { period ≤ most_ticks },
    ghost deadline_most: { deadline ≤ most_ticks },
    ghost cost_most: { cost ≤ most_ticks },
}

impl Times {
    ghost use Rattle.std.specs.Prelude.{◌≡◌, ◌+◌, ◌*◌, ◌/◌, ◌<◌, take};
    ghost use Rattle.table.specs.Limits.{most_multiple};
    ghost use Rattle.table.specs.Table.{task_of, tasks_of};
    ghost use Rattle.readers.specs.Read.{table_in};
    ghost use Rattle.verdict.specs.Demand.{demand_of};
    ghost use Rattle.verdict.specs.Times.{timed, without_plan, AreTimes, most_load, most_demand};

    // What stands where no task does: the least that a task may have.
    const LEAST: Times = Times {
        period: 1,
        deadline: 1,
        cost: 1,
    };

    // T, D and C of a task.
    fn of(sound: &Sound<'_>, task: u32) -> Times
        requires { task < tasks_of (table_in sound.now.table) }
        ensures { timed result ≡ without_plan (task_of (table_in sound.now.table) task) }
    {
        Times {
            period: u64::from(sound.table.period(task)),
            deadline: u64::from(sound.table.deadline(task)),
            cost: u64::from(sound.table.cost(task)),
        }
    }

    // Those of the tasks of a table, task i's at place i. By a loop: `from_fn` would ask for tasks that aren't there too.
    pub(crate) fn gather(sound: &Sound<'_>) -> [Times; TASKS]
        ensures { AreTimes (table_in sound.now.table).tasks (take (tasks_of (table_in sound.now.table)) result) }
    {
        let mut all = [Times::LEAST; TASKS];
        for task in 0..sound.table.tasks() {
            all[task as usize] = Times::of(sound, task);
        }
        all
    }

    // A task's part of HEAVY's sum: "C * P / T"
    // P's bound is asked for and is no type's: P is multiplied, compared and added to, and a type would be taken apart for each.
    pub(crate) fn load(&self, p: u64) -> u64
        requires { p ≤ most_multiple }
        ensures value { result ≡ self.now.cost * p / self.now.period }
        ensures most { result ≤ most_load }
    {
        self.cost * p / self.period
    }

    // A task's part of h(t): "over tasks with D at most t, of C times (1 + (t - D) / T, rounded down)".
    // t's bound is asked for and is no type's: t is counted up, compared and subtracted from, and a type would be taken apart for each.
    pub(crate) fn demand(&self, t: u64) -> u64
        requires { t ≤ most_multiple + most_ticks }
        ensures value { result ≡ demand_of (timed self.now) t }
        ensures most { result ≤ most_demand }
    {
        if self.deadline <= t {
            self.cost * (1 + (t - self.deadline) / self.period)
        } else {
            0
        }
    }
}
