// The sections that a plan holds while the check walks it, and what is left at each open level.
ghost use Rattle.std.specs.Prelude.{◌≡◌, true, ◌≤◌, length};
ghost use Rattle.table.specs.Limits.{most_held, most_levels};
ghost use Rattle.table.specs.Held.{held_set};
ghost use Rattle.table.specs.Levels.{sections_of, apart};

use crate::Finding;
use crate::limits::{LEVELS, MOST_HELD};

// A lock that isn't unlocked yet.
#[derive(Clone, Copy)]
pub(crate) struct Section {
    resource: u32,
    length: u32,
}

// No section: zeros.
const CLOSED: Section = Section {
    resource: 0,
    length: 0,
};

// The sections, the innermost first, and their resources as a set; and for every open level, one more than sections, what the sections opened in
// it have left of its room. A lock shifts both arrays by one place and an unlock shifts them back, so that every index is a constant: a store
// at an index known only when it runs, before the whole array is read, makes each step wait for memory. No resource is held twice, so an unlock that
// takes one out of the set leaves the set of the rest.
// Two arrays and a depth: one array of levels was tried and made a check a fifth dearer (44.6 M against 37.2 M instructions for 3,000 surveys of a full table).
#[derive(Clone, Copy)]
pub(crate) struct Sections {
    set: u32,
    pub(crate) depth: usize,
    sections: [Section; MOST_HELD],
    spare: [u32; LEVELS],
    ghost places: { length sections ≡ most_held },
    ghost levels: { length spare ≡ most_levels },
    ghost room: { depth ≤ most_held },
    ghost held: { set ≡ held_set (sections_of depth sections) },
    ghost apart: { apart (sections_of depth sections) ≡ true },
}

impl Sections {
    ghost use Rattle.std.specs.Prelude.{◌+◌, ◌<◌, ltb};
    ghost use Rattle.sets.specs.Member.{width};
    ghost use Rattle.table.specs.Limits.{step_size};
    ghost use Rattle.table.specs.Table.{lock, unlock};
    ghost use Rattle.table.specs.Check.{broken_lock};
    ghost use Rattle.table.specs.Spare.{spare_here};
    ghost use Rattle.table.specs.Walk.{sections_in, spare_in, standing_first, standing_in, standing_read, judged};

    // A plan at its start: its outermost sections share C.
    #[tactic(auto, unfolding(crate::specs::Held::held_set, crate::specs::Levels::apart))]
    pub(crate) fn nothing_held(cost: u32) -> Self
        ensures { standing_in result ≡ standing_first cost }
    {
        Sections {
            set: 0,
            depth: 0,
            sections: [CLOSED; MOST_HELD],
            spare: [cost, 0, 0, 0, 0],
        }
    }

    // NEST: "lock of a resource already held by the plan; a fifth held section; an inner length above that of the section right around it".
    #[tactic(auto, using(crate::proofs::Levels::lock_tests))]
    fn broken_lock(self, resource: u32, length: u32) -> bool
        ensures { result ≡ broken_lock resource length (sections_in self) }
    {
        self.depth != 0
            && (sets::has(self.set, resource)
                || MOST_HELD <= self.depth
                || self.sections[0].length < length)
    }

    // CROWDED: the lengths at the level of a lock, this one included, "add up to more than" the room there.
    fn crowded_lock(self, length: u32) -> bool
        ensures { result ≡ ltb (spare_here (spare_in self)) length }
    {
        self.spare[0] < length
    }

    // A lock at a place: one section more, which takes its length from what is left around it.
    pub(crate) fn lock(self, resource: u32, length: u32, at: usize) -> Result<Self, Finding>
        requires { resource < width }
        ensures { standing_read result (at + step_size) ≡ judged (lock resource length) (standing_in self) at }
    {
        if self.broken_lock(resource, length) {
            return Err(Finding::Nest(at));
        }
        if self.crowded_lock(length) {
            return Err(Finding::Crowded(at));
        }
        let [first, second, third, _] = self.sections;
        let [around, next, outer, outermost, _] = self.spare;
        Ok(Sections {
            set: sets::with(self.set, resource),
            depth: self.depth + 1,
            sections: [Section { resource, length }, first, second, third],
            spare: [length, around - length, next, outer, outermost],
        })
    }

    // "Kind 2 unlocks the most recent one": one section less. What it took from the level around it stays taken.
    pub(crate) fn unlock(self, at: usize) -> Result<Self, Finding>
        ensures { standing_read result (at + step_size) ≡ judged unlock (standing_in self) at }
    {
        if self.depth == 0 {
            return Err(Finding::Nest(at));
        }
        let [innermost, second, third, fourth] = self.sections;
        let [_, around, next, outer, outermost] = self.spare;
        Ok(Sections {
            set: sets::without(self.set, innermost.resource),
            depth: self.depth - 1,
            sections: [second, third, fourth, CLOSED],
            spare: [around, next, outer, outermost, 0],
        })
    }
}
