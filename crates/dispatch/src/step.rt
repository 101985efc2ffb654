// The running job's next step, from BACK on (document 01, "When an event is turned away").
ghost use Rattle.std.specs.Prelude.{◌≡◌, ◌≤◌, ◌<◌};
ghost use Rattle.table.specs.Limits.{most_tasks, end_of_time};
ghost use Rattle.readers.specs.Read.{table_in};
ghost use Rattle.machine.specs.Order.{who_runs};
ghost use Rattle.machine.specs.Event.{step as aStep};
ghost use Rattle.machine.specs.Away.{held_by_another, event_in};
ghost use Rattle.dispatch.specs.Heard.{outcome_of};

use crate::time::in_time;
use crate::whole::Whole;
use crate::{Outcome, Refusal, change, said};
use table::Next;

impl Whole<'_> {
    // HELD: "the next step locks what another ready job holds"
    fn held_by_another(&self, task: u32, resource: u32) -> bool
        requires { task < most_tasks }
        ensures { result ≡ held_by_another (table_in self.now.table) self.now.kept.now task resource }
    {
        sets::members(sets::without(self.kept.ready, task)).any(|j| sets::has(
            self.table.held(j, self.kept.rows[j as usize].place),
            resource,
        ))
    }

    // The step of the job that runs, at a time that is neither BACK nor END.
    fn step_by(&self, task: u32, time: u64) -> Result<Outcome, Refusal>
        requires { (who_runs self.now.kept.now ≡ Some task) × (self.now.kept.now.clock ≤ time) × (time < end_of_time) }
        ensures { outcome_of self.now.kept.now result ≡ event_in (table_in self.now.table) self.now.kept.now (aStep time) }
    {
        let row = &self.kept.rows[task as usize];
        match self.table.next(task, row.place) {
            Next::Lock(resource, _) => {
                if self.held_by_another(task, resource) {
                    return Err(Refusal::Held);
                }
                Ok(said::goes_on(None, self.locked(task, resource, time)))
            }
            Next::Unlock => Ok(said::goes_on(None, self.unlocked(task, time))),
            Next::Finish => {
                let late = change::late(time, row.base);
                Ok(said::goes_on(Some(late), self.finished(task, time)))
            }
        }
    }

    pub(crate) fn step(&self, time: u64) -> Result<Outcome, Refusal>
        ensures { outcome_of self.now.kept.now result ≡ event_in (table_in self.now.table) self.now.kept.now (aStep time) }
    {
        in_time(self.kept.clock, time)?;
        let task = machine::who_runs(*self.kept).ok_or(Refusal::Nobody)?;
        self.step_by(task, time)
    }
}
