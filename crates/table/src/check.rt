// The table check: document 01, "When the table check says no". One pass over the words, in their order, stops at the first broken one.
// `survey` also marks where each task starts, so that the readers need no second pass. The lent words are only read.
ghost use Rattle.std.specs.Prelude.{◌≡◌, ◌≤◌, ◌<◌, length, MatchResult};
ghost use Rattle.table.specs.Map.{map_of};
ghost use Rattle.table.specs.Said.{said_of, check_said, survey_said, survey_of};
ghost use Rattle.table.specs.declared.Finding.TheVariants.{Short};

use crate::limits::{MOST_RESOURCES, MOST_TASKS, TASKS};
use crate::walk::Walk;
use crate::words::read_word;
use crate::{Finding, Map};

// "words remain after the last task": SHORT at "the first extra word".
fn read_end(words: &[u32], end: usize) -> Result<(), Finding>
    ensures { MatchResult result (λ _. length words.now ≤ end) (λ finding. (finding ≡ Short end) × (end < length words.now)) }
{
    if end < words.len() {
        return Err(Finding::Short(end));
    }
    Ok(())
}

// Where the tasks of a list start that passes the check.
pub fn survey(words: &[u32]) -> Result<Map, Finding>
    ensures { survey_said result ≡ survey_of words.now }
{
    let tasks = read_word(words, 0, 1..=MOST_TASKS, Finding::Count(0))?;
    let resources = read_word(words, 1, 0..=MOST_RESOURCES, Finding::Count(1))?;
    let mut starts = [0; TASKS];
    let walk = Walk { words, resources };
    let end = walk.read_tasks(&mut starts[..tasks as usize])?;
    read_end(words, end)?;
    Ok(Map {
        tasks,
        resources,
        starts,
    })
}

// The table check: whether a list passes, or a refusal with its place.
pub fn check(words: &[u32]) -> Result<(), Finding>
    ensures { said_of result ≡ check_said words.now }
{
    survey(words)?;
    Ok(())
}

// The map of a refused list: zeros and not None, for `no_map` of specs/Map.antt holds them, and `show` is promised by it.
pub const NO_MAP: Map = Map {
    tasks: 0,
    resources: 0,
    starts: [0; TASKS],
};

// The map of any list of words.
pub fn map_of(words: &[u32]) -> Map
    ensures { result ≡ map_of words.now }
{
    survey(words).unwrap_or(NO_MAP)
}
