// One step of a plan, as the check judges it.
ghost use Rattle.std.specs.Prelude.{◌≡◌, true, MatchOption};
ghost use Rattle.table.specs.Check.{broken_step};
ghost use Rattle.table.specs.Walk.{SoundStep};

use crate::limits::{LOCK, UNLOCK};

// A step that is sound by itself: a lock of a resource for a length, or an unlock.
#[derive(Clone, Copy)]
pub(crate) enum Step {
    Lock { resource: u32, length: u32 },
    Unlock,
}

// STEP: "kind is neither 1 nor 2; or an unlock has a word that isn't 0; or a lock's resource is not below m or its length is outside its
// limits".
pub(crate) fn step_of(
    resources: u32,
    cost: u32,
    kind: u32,
    resource: u32,
    length: u32,
) -> Option<Step>
    ensures { MatchOption result (broken_step resources cost kind resource length ≡ true) (λ step. SoundStep resources cost kind resource length step) }
{
    match kind {
        LOCK if resource < resources && (1..=cost).contains(&length) => {
            Some(Step::Lock { resource, length })
        }
        UNLOCK if resource == 0 && length == 0 => Some(Step::Unlock),
        _ => None,
    }
}
