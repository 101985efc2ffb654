// The walk over all tasks and their steps.
ghost use Rattle.std.specs.Prelude.{◌≤◌};
ghost use Rattle.table.specs.Limits.{most_resources};

use crate::Finding;
use crate::limits::{
    AT_COST, AT_DEADLINE, AT_LENGTH, AT_PERIOD, AT_PLAN, AT_RESOURCE, AT_STEPS, AT_TASKS,
    MOST_STEPS, STEP_SIZE,
};
use crate::sections::Sections;
use crate::steps::{Step, step_of};
use crate::words::{read_ticks, read_word};

// The list that is walked, and its m: "a lock's resource is not below m" is refused.
// Each method asks for a place that is at most the list's length, so that no sum of places overflows; a type for such a place would be made at each word.
#[derive(Clone, Copy)]
pub(crate) struct Walk<'a> {
    pub(crate) words: &'a [u32],
    pub(crate) resources: u32,
    ghost most: { resources ≤ most_resources },
}

// What a task's steps need of the words before them: C and s.
#[derive(Clone, Copy)]
struct Head {
    cost: u32,
    steps: u32,
}

impl Walk<'_> {
    ghost use Rattle.std.specs.Prelude.{◌≡◌, ◌+◌, length, IfOk};
    ghost use Rattle.table.specs.Limits.{at_tasks, at_plan, step_size};
    ghost use Rattle.table.specs.Check.{task_in, tasks_in};
    ghost use Rattle.table.specs.Map.{starts_from};
    ghost use Rattle.table.specs.Walk.{end_read, end_of, plan_read, standing_in, standing_read, step_from};

    // "a step's three words are asked for together"; "Within a step 4 goes before 5", and CROWDED "comes after 4 and 5 within a step".
    fn read_step(&self, at: usize, cost: u32, sections: Sections) -> Result<Sections, Finding>
        requires { at ≤ length self.now.words.now }
        ensures { standing_read result (at + step_size) ≡ step_from self.now.resources cost (standing_in sections) self.now.words.now at }
    {
        let Some(step) = self.words.get(at..at + STEP_SIZE) else {
            return Err(Finding::Short(self.words.len()));
        };
        let (kind, resource, length) = (step[0], step[AT_RESOURCE], step[AT_LENGTH]);
        match step_of(self.resources, cost, kind, resource, length) {
            Some(Step::Lock { resource, length }) => sections.lock(resource, length, at),
            Some(Step::Unlock) => sections.unlock(at),
            None => Err(Finding::Step(at)),
        }
    }

    // "for each task in order T, D, C, the number of steps s, and three words a step": each is asked for only when those before it are sound.
    fn read_head(&self, at: usize) -> Result<Head, Finding>
        requires { at ≤ length self.now.words.now }
        ensures read { plan_read result self.now.resources self.now.words.now (at + at_plan) ≡ end_of (task_in self.now.resources self.now.words.now at) }
        ensures room { IfOk result (λ _. at + at_plan ≤ length self.now.words.now) }
    {
        read_ticks(self.words, at + AT_PERIOD)?;
        read_ticks(self.words, at + AT_DEADLINE)?;
        let cost = read_ticks(self.words, at + AT_COST)?;
        let steps = read_word(
            self.words,
            at + AT_STEPS,
            0..=MOST_STEPS,
            Finding::Count(at + AT_STEPS),
        )?;
        Ok(Head { cost, steps })
    }

    // All tasks, as many as there are starts to mark, and the place behind them. "The check stops at the first broken word": both loops are left
    // there, with its number and place. "A plan's end is judged before the next word is asked for."
    // By a label and not by ?: document 01, "The form each place takes", names it.
    #[tactic(auto, using(crate::proofs::Reading::plan_holds, crate::proofs::Reading::tasks_hold))]
    pub(crate) fn read_tasks(&self, starts: &mut [usize]) -> Result<usize, Finding>
        requires { at_tasks ≤ length self.now.words.now }
        ensures read { end_read result ≡ end_of (tasks_in (length starts.old) self.now.resources self.now.words.now at_tasks) }
        ensures marked { IfOk result (λ _. starts.new ≡ starts_from (length starts.old) self.now.words.now at_tasks) }
    {
        'tasks: {
            let mut at = AT_TASKS;
            for start in starts.iter_mut() {
                *start = at;
                let head = match self.read_head(at) {
                    Ok(head) => head,
                    Err(finding) => break 'tasks Err(finding),
                };
                let mut sections = Sections::nothing_held(head.cost);
                at += AT_PLAN;
                for _ in 0..head.steps {
                    sections = match self.read_step(at, head.cost, sections) {
                        Ok(next) => next,
                        Err(finding) => break 'tasks Err(finding),
                    };
                    at += STEP_SIZE;
                }
                if sections.depth != 0 {
                    break 'tasks Err(Finding::Nest(at));
                }
            }
            Ok(at)
        }
    }
}
