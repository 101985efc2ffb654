// What an event answers that isn't turned away, once it is known what is kept.
ghost use Rattle.std.specs.Prelude.{◌≡◌};
ghost use Rattle.machine.specs.Machine.{turn_of};
ghost use Rattle.dispatch.specs.Parts.{goes_on};
ghost use Rattle.dispatch.specs.Heard.{turn_said, went_of};

use crate::{Accepted, Outcome, Turn};
use machine::Kept;

// "'runs' with task number and active deadline, or 'idle'"
fn turn(kept: &Kept) -> Option<Turn>
    ensures { turn_said result ≡ turn_of kept.now }
{
    let task = machine::who_runs(*kept)?;
    let deadline = kept.rows[task as usize].active;
    Some(Turn { task, deadline })
}

// What is kept after a move, and then the turn; "a finish adds its lateness".
pub(crate) fn goes_on(late: Option<i64>, kept: Kept) -> Outcome
    ensures { went_of result ≡ goes_on late kept }
{
    let turn = turn(&kept);
    Outcome {
        kept,
        accepted: Accepted { late, turn },
    }
}
