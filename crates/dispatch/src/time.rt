// BACK and END, which every event may be told: "the time is before the clock (equal is allowed)"; "the time is 2^40 or more".
ghost use Rattle.std.specs.Prelude.{◌≡◌};
ghost use Rattle.dispatch.specs.Parts.{in_time_of};

use crate::Refusal;
use table::limits::END_OF_TIME;

pub(crate) fn in_time(clock: u64, time: u64) -> Result<(), Refusal>
    ensures { result ≡ in_time_of clock time }
{
    if time < clock {
        return Err(Refusal::Back);
    }
    if END_OF_TIME <= time {
        return Err(Refusal::End);
    }
    Ok(())
}
