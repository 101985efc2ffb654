// TORN, and what stands behind it: a table and what is kept, with which nothing is torn. The moves and the events from BACK on are its methods.
ghost use Rattle.std.specs.Prelude.{◌≡◌, true, false, length, take, IfOk, IfErr};
ghost use Rattle.table.specs.Check.{check_of};
ghost use Rattle.table.specs.Map.{map_of};
ghost use Rattle.readers.specs.Read.{table_in};
ghost use Rattle.torn.specs.Torn.{table_from, torn_of};

use crate::Refusal;
use machine::Kept;
use readers::Table;
use table::limits::ROOM;
use torn::Torn;

// A torn state turns every event away.
impl From<Torn> for Refusal {
    ghost use Rattle.dispatch.specs.declared.Refusal.{Refusal};

    ghost from_gives = { λ _ refusal. refusal ≡ Refusal.Torn };

    fn from(_torn: Torn) -> Refusal {
        Refusal::Torn
    }
}

// A table whose map is that of its words, and what is kept, with which nothing is torn. Here as in `torn` and `board` a task's bound and a time's are asked for and are no
// type's: both come as plain numbers from sets and callers, and a type would be taken apart at each row.
#[derive(Clone, Copy)]
pub(crate) struct Whole<'a> {
    pub(crate) table: Table<'a>,
    pub(crate) kept: &'a Kept,
    ghost mapped: { table.map ≡ map_of table.words.now },
    ghost untorn: { torn_of table.words.now (length table.words.now) kept.now ≡ false },
}

impl<'a> Whole<'a> {
    // TORN, of a state's words, of how many of them are in use and of what is kept.
    pub(crate) fn of(
        words: &'a [u32; ROOM],
        used: usize,
        kept: &'a Kept,
    ) -> Result<Whole<'a>, Refusal>
        ensures torn { IfErr result (λ refusal. (refusal ≡ Refusal.Torn) × (torn_of words.now used kept.now ≡ true)) }
        ensures whole { IfOk result (λ whole. (torn_of words.now used kept.now ≡ false) × (table_in whole.table ≡ table_from (check_of (take used words.now))) × (whole.kept.now ≡ kept.now)) }
    {
        let map = torn::examine(words, used, *kept)?;
        let words = &words[..used];
        Ok(Whole {
            table: Table { words, map },
            kept,
        })
    }
}
