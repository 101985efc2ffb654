// One word of a table, as the check judges it.
ghost use Rattle.std.specs.Prelude.{◌≡◌, ◌+◌, false};
ghost use Rattle.std.specs.Range.{range_inclusive_start, range_inclusive_end, range_inclusive_exhausted};
ghost use Rattle.numbers.specs.Answers.{RANGE};
ghost use Rattle.table.specs.Limits.{most_ticks};
ghost use Rattle.table.specs.Said.{refusal_said, number_in, place_in};
ghost use Rattle.table.specs.Check.{word_in};
ghost use Rattle.table.specs.Walk.{word_read};

use crate::Finding;
use crate::limits::MOST_TICKS;
use std::ops::RangeInclusive;

// The word at a place, SHORT where it isn't there, and `outside` where it is outside its limits.
#[tactic(auto, unfolding(crate::specs::Check::word_in))]
pub(crate) fn read_word(
    words: &[u32],
    at: usize,
    limits: RangeInclusive<u32>,
    outside: Finding,
) -> Result<u32, Finding>
    requires whole { range_inclusive_exhausted limits ≡ false }
    requires place { place_in (refusal_said outside) ≡ at }
    ensures { word_read result (at + 1) ≡ word_in (number_in (refusal_said outside)) (range_inclusive_start limits) (range_inclusive_end limits) words.now at }
{
    match words.get(at) {
        None => Err(Finding::Short(words.len())),
        Some(word) if limits.contains(word) => Ok(*word),
        Some(_) => Err(outside),
    }
}

// "T, D, C, each | 1 | 1,000,000": outside of that it is RANGE.
pub(crate) fn read_ticks(words: &[u32], at: usize) -> Result<u32, Finding>
    ensures { word_read result (at + 1) ≡ word_in RANGE 1 most_ticks words.now at }
{
    read_word(words, at, 1..=MOST_TICKS, Finding::Range(at))
}
