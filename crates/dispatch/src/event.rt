// An event on a state's parts: its words, as many of them as are in use, and what is kept. The words are lent, and only what is kept comes back, so that a caller who
// keeps its state in parts makes no `State` and copies no words. Each part stays a parameter: the promises of `release`, `step` and `torn::examine` name it. TORN goes
// first, then the machine. A refusal changes nothing: no `Kept` comes back with it.
ghost use Rattle.std.specs.Prelude.{◌≡◌};
ghost use Rattle.dispatch.specs.State.{state_of};
ghost use Rattle.dispatch.specs.Heard.{outcome_of};
ghost use Rattle.dispatch.specs.Dispatch.{release_of, step_of, after};

use crate::whole::Whole;
use crate::{Outcome, Refusal};
use machine::Kept;
use table::limits::ROOM;

// A release of a task at a time.
pub fn release(
    words: &[u32; ROOM],
    used: usize,
    kept: Kept,
    task: u32,
    time: u64,
) -> Result<Outcome, Refusal>
    ensures { after (state_of words.now used kept) (outcome_of kept result) ≡ release_of (state_of words.now used kept) task time }
{
    Whole::of(words, used, &kept)?.release(task, time)
}

// The running job's next step at a time.
pub fn step(words: &[u32; ROOM], used: usize, kept: Kept, time: u64) -> Result<Outcome, Refusal>
    ensures { after (state_of words.now used kept) (outcome_of kept result) ≡ step_of (state_of words.now used kept) time }
{
    Whole::of(words, used, &kept)?.step(time)
}
