// One task by its words, which begin where the task starts. Every call answers for every list of words: a word that isn't there is 0, so where
// there are none, all figures are zeros and the plan has no step.
ghost use Rattle.std.specs.Prelude.{◌≡◌, get_or, length};
ghost use Rattle.table.specs.Held.{held_by, held_set};
ghost use Rattle.table.specs.Innermost.{innermost_of};
ghost use Rattle.table.specs.Floor.{uses};
ghost use Rattle.table.specs.Map.{next_of};
ghost use Rattle.readers.specs.Read.{task_in, at_step, step_in, locked_by, OpenBefore};

use numbers::lesser;
use table::Next;
use table::limits::{AT_LENGTH, AT_PLAN, AT_RESOURCE, AT_STEPS, LOCK, MOST_STEPS, STEP_SIZE};

// The word that stands `offset` behind the start. 0 and not None where there is no word: `task_at` holds it.
pub(crate) fn word(words: &[u32], offset: usize) -> u32
    ensures { result ≡ get_or words.now offset 0 }
{
    words.get(offset).copied().unwrap_or(0)
}

// s: how many steps the plan has. No more are read than it may have.
#[tactic(auto, using(crate::proofs::Raw::plan_length))]
pub(crate) fn steps(words: &[u32]) -> u32
    ensures { result ≡ length (task_in words.now).plan }
{
    lesser(word(words, AT_STEPS), MOST_STEPS)
}

// How far behind the start the step at a place of the plan stands.
fn step_at(place: u32) -> usize
    ensures { result ≡ at_step place }
{
    AT_PLAN + STEP_SIZE * place as usize
}

// The resource that the step at a place locks: "Kind 1 locks the resource". Any other kind is read as an unlock, which locks none.
fn locked(words: &[u32], place: u32) -> Option<u32>
    ensures { result ≡ locked_by (step_in words.now place) }
{
    let first = step_at(place);
    // A number and no enum, for it is what the words say; `Next` is the kind.
    if word(words, first) == LOCK {
        return Some(word(words, first + AT_RESOURCE));
    }
    None
}

// The step at a place: a lock "for a section of at most that length", or an unlock; "After the last step comes the finish".
#[tactic(auto, using(crate::proofs::Raw::next_steps))]
pub(crate) fn next(words: &[u32], place: u32) -> Next
    ensures { result ≡ next_of (task_in words.now).plan place }
{
    if steps(words) <= place {
        return Next::Finish;
    }
    let Some(resource) = locked(words, place) else {
        return Next::Unlock;
    };
    let length = word(words, step_at(place) + AT_LENGTH);
    Next::Lock(resource, length)
}

// A lock that no unlock before some place closes: its resource, and its own place.
#[derive(Clone, Copy)]
struct Open {
    resource: u32,
    place: u32,
}

// The innermost of the locks that are open before a place. The walk goes back from the place: "Kind 2 unlocks the most recent one", so an unlock
// closes the nearest lock before it that is not closed yet.
#[tactic(auto, using(crate::proofs::Closing::walk_steps))]
fn open_before(words: &[u32], place: u32) -> Option<Open>
    ensures { OpenBefore (task_in words.now).plan place result }
{
    let mut closing: u32 = 0;
    for k in (0..lesser(place, steps(words))).rev() {
        match locked(words, k) {
            Some(resource) if closing == 0 => return Some(Open { resource, place: k }),
            Some(_) => closing -= 1,
            None => closing += 1,
        }
    }
    None
}

// What the steps before a place leave locked, as a set.
#[tactic(auto, using(crate::proofs::Closing::held_all))]
pub(crate) fn held(words: &[u32], place: u32) -> u32
    ensures { result ≡ held_set (held_by (task_in words.now).plan place) }
{
    let mut set: u32 = 0;
    let mut left = place;
    while let Some(open) = open_before(words, left) {
        set = sets::with(set, open.resource);
        left = open.place;
    }
    set
}

// The resource of the innermost of them, and 0 where nothing is held.
pub(crate) fn innermost(words: &[u32], place: u32) -> u32
    ensures { result ≡ innermost_of (held_by (task_in words.now).plan place) }
{
    open_before(words, place).map_or(0, |open| open.resource)
}

// Whether the plan locks a resource.
pub(crate) fn locks(words: &[u32], resource: u32) -> bool
    ensures { result ≡ uses (task_in words.now) resource }
{
    (0..steps(words)).any(|place| locked(words, place) == Some(resource))
}
