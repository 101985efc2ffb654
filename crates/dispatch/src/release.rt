// A release of a task, from BACK on (document 01, "When an event is turned away").
ghost use Rattle.std.specs.Prelude.{◌≡◌, ◌<◌};
ghost use Rattle.table.specs.Limits.{most_tasks};
ghost use Rattle.readers.specs.Read.{table_in};
ghost use Rattle.machine.specs.Event.{release as aRelease};
ghost use Rattle.machine.specs.Away.{early as isEarly, event_in};
ghost use Rattle.dispatch.specs.Heard.{outcome_of};

use crate::time::in_time;
use crate::whole::Whole;
use crate::{Outcome, Refusal, said};

impl Whole<'_> {
    // EARLY: "less than T after the task's last accepted release"
    fn early(&self, task: u32, time: u64) -> bool
        requires { task < most_tasks }
        ensures { result ≡ isEarly (table_in self.now.table) self.now.kept.now task time }
    {
        let last = self.kept.rows[task as usize].last;
        let period = u64::from(self.table.period(task));
        sets::has(self.kept.had, task) && time < last + period
    }

    pub(crate) fn release(&self, task: u32, time: u64) -> Result<Outcome, Refusal>
        ensures { outcome_of self.now.kept.now result ≡ event_in (table_in self.now.table) self.now.kept.now (aRelease task time) }
    {
        in_time(self.kept.clock, time)?;
        if self.table.tasks() <= task {
            return Err(Refusal::Nobody);
        }
        if sets::has(self.kept.ready, task) {
            return Err(Refusal::Active);
        }
        if self.early(task, time) {
            return Err(Refusal::Early);
        }
        Ok(said::goes_on(None, self.released(task, time)))
    }
}
