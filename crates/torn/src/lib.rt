// TORN (document 01, "When an event is turned away"): "the state's own ranges fail". The test walks the table once, and hands on what the walk learns.
#![tactic(auto)]

mod released; // released.rt: the release numbers
mod stored; // stored.rt: the stored times

ghost use Rattle.std.specs.Prelude.{◌≡◌, false, ◌<◌, ◌^◌, ltb};
ghost use Rattle.table.specs.Limits.{room, most_tasks};
ghost use Rattle.readers.specs.Read.{table_in};
ghost use Rattle.torn.specs.Torn.{torn_clock, torn_ready, torn_place, torn_last, torn_count, torn_by};
ghost use Rattle.torn.specs.Examined.{tested, examined_of};

use machine::Kept;
use numbers::lesser;
use readers::Table;
use table::Map;
use table::check::{NO_MAP, survey};
use table::limits::{END_OF_TIME, MOST_RELEASES, ROOM};

// "its clock is 2^40 or more"
#[tactic(auto, unfolding(crate::specs::Torn::torn_clock))]
fn clock_past_end(kept: &Kept) -> bool
    ensures { result ≡ torn_clock kept.now }
{
    END_OF_TIME <= kept.clock
}

// "a job counts as ready whose task is not below n"
fn ready_past_tasks(table: &Table<'_>, kept: &Kept) -> bool
    ensures { (result ≡ torn_ready (table_in table.now) kept.now) × (result ≡ false → kept.now.ready < 2 ^ most_tasks) }
{
    let tasks = table.tasks();
    sets::members(kept.ready).any(|i| tasks <= i)
}

// "a ready job's place is past its plan's end"
fn place_past_end(table: &Table<'_>, kept: &Kept) -> bool
    requires { kept.now.ready < 2 ^ most_tasks }
    ensures { result ≡ torn_place (table_in table.now) kept.now }
{
    sets::members(kept.ready).any(|i| table.steps(i) < kept.rows[i as usize].place)
}

// "a task's last release is after the clock": "judged for tasks below n that have had a release".
fn last_release_after_clock(table: &Table<'_>, kept: &Kept) -> bool
    ensures { result ≡ torn_last (table_in table.now) kept.now }
{
    let tasks = table.tasks();
    sets::members(kept.had).any(|i| i < tasks && kept.clock < kept.rows[i as usize].last)
}

// "its count of accepted releases is above 2^44"
#[tactic(auto, unfolding(crate::specs::Torn::torn_count))]
fn too_many_releases(kept: &Kept) -> bool
    ensures { result ≡ torn_count kept.now }
{
    MOST_RELEASES < kept.count
}

// The grounds behind the table's own, in document 01's order. Of a table and what is kept: two parameters, since a type of the two would be made for this one call.
#[tactic(auto, unfolding(crate::specs::Torn::torn_by))]
fn torn_by(table: &Table<'_>, kept: &Kept) -> bool
    ensures { result ≡ torn_by (table_in table.now) kept.now }
{
    clock_past_end(kept)
        || ready_past_tasks(table, kept)
        || place_past_end(table, kept)
        || stored::stored_too_late(kept)
        || last_release_after_clock(table, kept)
        || too_many_releases(kept)
        || released::some_number_wrong(kept)
}

// More words in use than a table's room has: no list of that length passes the check.
fn too_long(used: usize) -> bool
    ensures { result ≡ ltb room used }
{
    ROOM < used
}

// A torn state, and the map of its words all the same.
#[derive(Clone, Copy)]
pub struct Torn {
    pub map: Map,
}

// The whole test, of a state's words, of how many of them are in use and of what is kept. Any number may stand in `used` and has its answer, so no slice is lent; no
// more words are in use than there are. A state that isn't torn has its table's map.
pub fn examine(words: &[u32], used: usize, kept: Kept) -> Result<Map, Torn>
    ensures { tested result ≡ examined_of words.now used kept }
{
    let words = &words[..lesser(used, words.len())];
    match survey(words) {
        Ok(map) if too_long(used) || torn_by(&Table { words, map }, &kept) => Err(Torn { map }),
        Ok(map) => Ok(map),
        Err(_) => Err(Torn { map: NO_MAP }),
    }
}
