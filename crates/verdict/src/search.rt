// The search of document 01's "The verdict": h(t) + b(t) at one t after the other, of a table that passes the check.
ghost use Rattle.std.specs.Prelude.{◌≤◌, ◌≡◌};
ghost use Rattle.table.specs.Limits.{most_ticks};
ghost use Rattle.readers.specs.Read.{table_in};
ghost use Rattle.verdict.specs.Floors.{AreFloors};
ghost use Rattle.verdict.specs.Times.{AreTimes};
ghost use Rattle.verdict.specs.Verdict.{largest as largestOf};

use crate::sound::Sound;
use crate::times::Times;
use crate::work::{demand, largest};
use numbers::greater;
use table::Next;
use table::limits::RESOURCES;

// A table, and what is asked of it at each t: its tasks' times, the largest D, and the floors of all the resources that it may have.
#[derive(Drop)]
pub(crate) struct Search<'a> {
    sound: &'a Sound<'a>,
    times: &'a [Times],
    last: u64,
    floors: [u64; RESOURCES],
    ghost its_times: { ∥ AreTimes (table_in sound.now.table).tasks times.now ∥₁ },
    ghost its_last: { last ≡ largestOf (table_in sound.now.table).tasks },
    ghost last_most: { last ≤ most_ticks },
    ghost its_floors: { AreFloors (table_in sound.now.table) floors },
}

impl<'a> Search<'a> {
    ghost use Rattle.std.specs.Prelude.{suc, ◌+◌, get_or};
    ghost use Rattle.table.specs.Limits.{most_multiple};
    ghost use Rattle.table.specs.Table.{unlock, task_of};
    ghost use Rattle.verdict.specs.Demand.{demand as demandAt};
    ghost use Rattle.verdict.specs.Blocking.{blocking_step, blocking_plan, blocking as blockingAt};
    ghost use Rattle.verdict.specs.Verdict.{first_late, late_said};
    ghost use Rattle.verdict.specs.Searched.{searched};

    pub(crate) fn new(sound: &'a Sound<'a>, times: &'a [Times]) -> Search<'a>
        requires { AreTimes (table_in sound.now.table).tasks times.now }
        ensures { searched result ≡ table_in sound.now.table }
    {
        Search {
            sound,
            times,
            last: largest(times),
            floors: std::array::from_fn(|r| u64::from(sound.table.floor(r as u32))),
        }
    }

    // One step: the length of a lock on a resource whose floor is at most t.
    fn blocking_step(&self, task: u32, place: u32, t: u64) -> u64
        ensures { result ≡ blocking_step (searched self.now) t (get_or (task_of (searched self.now) task).plan place unlock) }
    {
        match self.sound.table.next(task, place) {
            Next::Lock(resource, length) if self.floors[resource as usize] <= t => {
                u64::from(length)
            }
            _ => 0,
        }
    }

    // The greatest over a plan's steps, or 0.
    fn blocking_plan(&self, task: u32, t: u64) -> u64
        ensures { result ≡ blocking_plan (searched self.now) t (task_of (searched self.now) task).plan }
    {
        (0..self.sound.table.steps(task))
            .map(|place| self.blocking_step(task, place, t))
            .max()
            .unwrap_or(0)
    }

    // b(t): "the greatest length of a lock step of task j on resource r with D of j above t and the floor of r at most t, or 0".
    // By a loop: as a chain (`zip`, `filter`, `map`, `max`) a verdict on 16 tasks takes half as many instructions again.
    fn blocking(&self, t: u64) -> u64
        ensures { result ≡ blockingAt (searched self.now) t }
    {
        let mut most = 0;
        for (task, times) in self.times.iter().enumerate() {
            if t < times.deadline {
                most = greater(most, self.blocking_plan(task as u32, t));
            }
        }
        most
    }

    // h(t) + b(t). From the largest D on b(t) is 0, so it isn't asked for there.
    #[tactic(auto, using(crate::proofs::Within::demand_within, crate::proofs::Blocking::blocking_none))]
    fn demand_and_blocking(&self, t: u64) -> u64
        requires { t ≤ most_multiple + most_ticks }
        ensures { result ≡ demandAt (searched self.now) t + blockingAt (searched self.now) t }
    {
        let asked = demand(self.times, t);
        if t < self.last {
            asked + self.blocking(t)
        } else {
            asked
        }
    }

    // "the least t where h(t) + b(t) > t", up to P + the largest D.
    pub(crate) fn first_late(&self, p: u64) -> Option<u64>
        requires { p ≤ most_multiple }
        ensures { late_said result ≡ first_late (suc (p + largestOf (searched self.now).tasks)) 0 (searched self.now) }
    {
        (0..=p + self.last).find(|t| self.demand_and_blocking(*t) > *t)
    }
}
