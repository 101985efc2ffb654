// The verdict on a list of words (document 01, "The verdict").
ghost use Rattle.std.specs.Prelude.{◌≡◌};
ghost use Rattle.readers.specs.Read.{table_in};
ghost use Rattle.verdict.specs.Verdict.{judge as judgeOf, verdict_of};
ghost use Rattle.verdict.specs.Said.{verdict_said};

use crate::Verdict;
use crate::euclid::multiple;
use crate::search::Search;
use crate::sound::Sound;
use crate::times::Times;
use crate::work::load;
use readers::Table;
use table::Finding;
use table::check::survey;

// The verdict on a table that passes the check: LONG, HEAVY, LATE or FITS, in this order.
fn judge(sound: &Sound<'_>) -> Verdict
    ensures { verdict_said (Ok result) ≡ judgeOf (table_in sound.now.table) }
{
    let all = Times::gather(sound);
    let times = &all[..sound.table.tasks() as usize];
    let Some(p) = multiple(times) else {
        return Verdict::Long;
    };
    if load(times, p) > p {
        return Verdict::Heavy;
    }
    match Search::new(sound, times).first_late(p) {
        Some(t) => Verdict::Late(t),
        None => Verdict::Fits,
    }
}

// The verdict on any list of words: "After refusals 1 to 5", the four answers.
#[tactic(auto, using(crate::proofs::Passed::judged, crate::proofs::Passed::refuses))]
pub fn verdict(words: &[u32]) -> Result<Verdict, Finding>
    ensures { verdict_said result ≡ verdict_of words.now }
{
    let map = survey(words)?;
    Ok(judge(&Sound {
        table: Table { words, map },
    }))
}
