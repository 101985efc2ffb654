// What a table says, read off its words by a map: T, D, C, a plan's steps, what a plan's first steps hold, the users of a resource and its
// floor. Every reader answers for every list of words, every map, every task number and place: what it reads is the table `table_at` of
// specs/Map.antt. A word that isn't there is 0, a task that isn't there has zeros and no steps, and no plan is read past the most steps that it may have.
// A task's start is looked up in one place, `words_of`.
#![tactic(auto)]

mod task; // task.rt: one task by its words

ghost use Rattle.std.specs.Prelude.{min, ◌≡◌, length};
ghost use Rattle.table.specs.Limits.{most_tasks};
ghost use Rattle.table.specs.Table.{task_of};
ghost use Rattle.table.specs.Held.{held_by, held_set};
ghost use Rattle.table.specs.Floor.{users_of, floor_of};
ghost use Rattle.table.specs.Innermost.{innermost_of};
ghost use Rattle.table.specs.Map.{next_of};
ghost use Rattle.readers.specs.Read.{table_in, words_of};

use numbers::lesser;
use table::limits::{AT_COST, AT_DEADLINE, AT_PERIOD, MOST_TASKS};
use table::{Map, Next};

// A list of words and the map by which it is read. Both may be anything.
#[derive(Clone, Copy)]
pub struct Table<'a> {
    pub words: &'a [u32],
    pub map: Map,
}

impl<'a> Table<'a> {
    // n: "Word 0: number of tasks n". A map that says more has the most that a table may have.
    pub fn tasks(&self) -> u32
        ensures { result ≡ min self.now.map.tasks most_tasks }
    {
        lesser(self.map.tasks, MOST_TASKS)
    }

    // T. It has a name of its own, and so have D and C: who asked one reader for the three would name a word's place, and its promise a figure by that place.
    #[tactic(auto, using(crate::proofs::Raw::period_at))]
    pub fn period(&self, task: u32) -> u32
        ensures { result ≡ (task_of (table_in self.now) task).T }
    {
        task::word(self.words_of(task), AT_PERIOD)
    }

    // D
    #[tactic(auto, using(crate::proofs::Raw::deadline_at))]
    pub fn deadline(&self, task: u32) -> u32
        ensures { result ≡ (task_of (table_in self.now) task).D }
    {
        task::word(self.words_of(task), AT_DEADLINE)
    }

    // C
    #[tactic(auto, using(crate::proofs::Raw::cost_at))]
    pub fn cost(&self, task: u32) -> u32
        ensures { result ≡ (task_of (table_in self.now) task).C }
    {
        task::word(self.words_of(task), AT_COST)
    }

    // s, the number of steps of a task's plan.
    #[tactic(auto, using(crate::proofs::Raw::task_read))]
    pub fn steps(&self, task: u32) -> u32
        ensures { result ≡ length (task_of (table_in self.now) task).plan }
    {
        task::steps(self.words_of(task))
    }

    // The step of a task's plan at a place: "Kind 1 locks the resource for a section of at most that length", any other kind is read as an
    // unlock; "After the last step comes the finish".
    #[tactic(auto, using(crate::proofs::Raw::task_read))]
    pub fn next(&self, task: u32, place: u32) -> Next
        ensures { result ≡ next_of (task_of (table_in self.now) task).plan place }
    {
        task::next(self.words_of(task), place)
    }

    // "What a job holds is read from its plan and place": the set of resources that the steps before the place leave locked.
    #[tactic(auto, using(crate::proofs::Raw::task_read))]
    pub fn held(&self, task: u32, place: u32) -> u32
        ensures { result ≡ held_set (held_by (task_of (table_in self.now) task).plan place) }
    {
        task::held(self.words_of(task), place)
    }

    // The resource that an unlock at a place gives back: "Kind 2 unlocks the most recent one". Where nothing is held it is 0 and not None:
    // `innermost_of` holds it.
    #[tactic(auto, using(crate::proofs::Raw::task_read))]
    pub fn innermost(&self, task: u32, place: u32) -> u32
        ensures { result ≡ innermost_of (held_by (task_of (table_in self.now) task).plan place) }
    {
        task::innermost(self.words_of(task), place)
    }

    // "The users of a resource are the tasks whose plan locks it", as a set of tasks.
    #[tactic(auto, using(crate::proofs::Visiting::users_steps))]
    pub fn users(&self, resource: u32) -> u32
        ensures { result ≡ users_of (table_in self.now) resource }
    {
        let mut set: u32 = 0;
        for task in 0..self.tasks() {
            if task::locks(self.words_of(task), resource) {
                set = sets::with(set, task);
            }
        }
        set
    }

    // "The floor of a resource is the least D among its users". A resource without users has floor 0 and not None: `floor_of` holds it. The closure
    // says what it gives, since a proof takes that from no closure that holds a table.
    pub fn floor(&self, resource: u32) -> u32
        ensures { result ≡ floor_of (table_in self.now) resource }
    {
        sets::members(self.users(resource))
            .map(
                |task| -> u32
                    ensures { result ≡ (task_of (table_in self.entry.now) task).D }
                { self.deadline(task) },
            )
            .min()
            .unwrap_or(0)
    }

    // The words of a task, from its start on; a task that isn't there has none.
    #[tactic(auto, unfolding(crate::specs::Read::words_of))]
    fn words_of(&self, task: u32) -> &'a [u32]
        ensures { result.now ≡ words_of self.now task }
    {
        if task < self.tasks() {
            let start = self.map.starts[task as usize];
            return self.words.get(start..).unwrap_or(&[]);
        }
        &[]
    }
}
