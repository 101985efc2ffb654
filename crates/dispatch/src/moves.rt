// The four moves (document 01, "The machine's rules"): what is kept after an event that isn't turned away.
ghost use Rattle.std.specs.Prelude.{◌≡◌, true, ◌<◌, length};
ghost use Rattle.sets.specs.Member.{has as isMember};
ghost use Rattle.table.specs.Limits.{most_tasks, most_held, end_of_time};
ghost use Rattle.readers.specs.Read.{table_in};
ghost use Rattle.machine.specs.Machine.{held_of};
ghost use Rattle.machine.specs.Moves.{moved, to_release, to_lock, to_unlock, to_finish};

use crate::change;
use crate::whole::Whole;
use machine::Kept;

impl Whole<'_> {
    // A release: a new job.
    pub(crate) fn released(&self, task: u32, time: u64) -> Kept
        requires { (task < most_tasks) × (time < end_of_time) }
        ensures { result ≡ moved (table_in self.now.table) self.now.kept.now time (to_release task) }
    {
        let kept = self.kept;
        let deadline = u64::from(self.table.deadline(task));
        let job = change::new_job(time + deadline, kept.count, time);
        Kept {
            count: kept.count + 1,
            ready: sets::with(kept.ready, task),
            had: sets::with(kept.had, task),
            ..change::with_row(kept, time, task, job)
        }
    }

    // The running job's lock. Its depth is the size of the set of what the job holds.
    pub(crate) fn locked(&self, task: u32, resource: u32, time: u64) -> Kept
        requires { (task < most_tasks) × (isMember self.now.kept.now.ready task ≡ true) × (length (held_of (table_in self.now.table) self.now.kept.now task) < most_held) × (time < end_of_time) }
        ensures { result ≡ moved (table_in self.now.table) self.now.kept.now time (to_lock task resource) }
    {
        let row = &self.kept.rows[task as usize];
        let depth = sets::size(self.table.held(task, row.place)) as usize;
        let floor = u64::from(self.table.floor(resource));
        change::with_row(
            self.kept,
            time,
            task,
            change::lower(row, depth, time + floor),
        )
    }

    // The running job's unlock.
    pub(crate) fn unlocked(&self, task: u32, time: u64) -> Kept
        requires { (task < most_tasks) × (isMember self.now.kept.now.ready task ≡ true) × (0 < length (held_of (table_in self.now.table) self.now.kept.now task)) }
        ensures { result ≡ moved (table_in self.now.table) self.now.kept.now time (to_unlock task) }
    {
        let row = &self.kept.rows[task as usize];
        let depth = sets::size(self.table.held(task, row.place)) as usize;
        change::with_row(self.kept, time, task, change::restore(row, depth - 1))
    }

    // The running job's finish: it is ready no more, and its row is cleared.
    pub(crate) fn finished(&self, task: u32, time: u64) -> Kept
        requires { task < most_tasks }
        ensures { result ≡ moved (table_in self.now.table) self.now.kept.now time (to_finish task) }
    {
        let kept = self.kept;
        let cleared = change::no_job(kept.rows[task as usize].last);
        Kept {
            ready: sets::without(kept.ready, task),
            ..change::with_row(kept, time, task, cleared)
        }
    }
}
