// Document 01's tables: their limits, the check of a list of words, and the map by which the readers (crate `readers`) find their words.
#![tactic(auto)]

pub mod check;
pub mod limits;
mod sections;
mod steps;
mod walk;
mod words;

ghost use Rattle.std.specs.Prelude.{◌≡◌};
ghost use Rattle.table.specs.Said.{refusal_said, number_in, place_in};

use limits::TASKS;
use numbers::answers::{COUNT, CROWDED, NEST, RANGE, SHORT, STEP};

// What the check finds in a list that it refuses: what document 01 or request 105 names, with its place (a word index).
#[derive(Clone, Copy, Debug, PartialEq, Eq)]
pub enum Finding {
    Short(usize),
    Count(usize),
    Range(usize),
    Step(usize),
    Nest(usize),
    Crowded(usize),
}

impl Finding {
    // Document 01's number.
    pub fn number(self) -> u32
        ensures { result ≡ number_in (refusal_said self) }
    {
        match self {
            Finding::Short(_) => SHORT,
            Finding::Count(_) => COUNT,
            Finding::Range(_) => RANGE,
            Finding::Step(_) => STEP,
            Finding::Nest(_) => NEST,
            Finding::Crowded(_) => CROWDED,
        }
    }

    // The place, a word index. One arm a variant: an or-pattern over the six is as long.
    pub fn place(self) -> usize
        ensures { result ≡ place_in (refusal_said self) }
    {
        match self {
            Finding::Short(place) => place,
            Finding::Count(place) => place,
            Finding::Range(place) => place,
            Finding::Step(place) => place,
            Finding::Nest(place) => place,
            Finding::Crowded(place) => place,
        }
    }
}

// Where each task of a sound list starts, so that one pass over the words serves many reads.
// Fixed memory: no heap, so the starts stand in an array with their number beside it.
#[derive(Clone, Copy)]
pub struct Map {
    pub tasks: u32,
    pub resources: u32,
    pub starts: [usize; TASKS],
}

// One step of a plan. The finish, "which isn't written down", is a step that a job takes like the others, so it is a kind and no `None`.
#[derive(Clone, Copy)]
pub enum Next {
    Lock(u32, u32),
    Unlock,
    Finish,
}
