// The dispatcher of document 01: a state made from a checked table, and two events on it, each answered with who runs.
#![tactic(auto)]

mod change; // change.rt: what a move does to a row
pub mod event; // event.rt: an event on a state's parts, TORN included
mod moves; // moves.rt: the four moves
mod release; // release.rt: a release, from BACK on
mod said; // said.rt: what an event answers
mod start; // start.rt: the states that a start makes
mod step; // step.rt: a step, from BACK on
mod time; // time.rt: BACK and END
mod whole; // whole.rt: TORN, and what an event may count on behind it

ghost use Rattle.std.specs.Prelude.{◌≡◌};
ghost use Rattle.dispatch.specs.Heard.{number_of, heard_of, outcome_of, begun_of};
ghost use Rattle.dispatch.specs.Dispatch.{start_of, release_of, step_of, after};

use machine::Kept;
use numbers::answers::{ACTIVE, BACK, EARLY, END, HELD, NOBODY, TORN};
use table::Finding;
use table::limits::ROOM;

// The words of a table, with their length, and what is kept. A buffer with its length beside it, in fixed memory: `state_of` and the image have it so.
#[derive(Clone, Copy)]
pub struct State {
    pub words: [u32; ROOM],
    pub length: usize,
    pub kept: Kept,
}

// "'runs' with task number and active deadline"
#[derive(Clone, Copy, PartialEq, Eq, Debug)]
pub struct Turn {
    pub task: u32,
    pub deadline: u64,
}

// Why an event is turned away.
#[derive(Clone, Copy, PartialEq, Eq, Debug)]
pub enum Refusal {
    Torn,
    Back,
    End,
    Nobody,
    Active,
    Early,
    Held,
}

impl Refusal {
    // Document 01's number.
    pub fn number(self) -> u32
        ensures { result ≡ number_of self }
    {
        match self {
            Refusal::Torn => TORN,
            Refusal::Back => BACK,
            Refusal::End => END,
            Refusal::Nobody => NOBODY,
            Refusal::Active => ACTIVE,
            Refusal::Early => EARLY,
            Refusal::Held => HELD,
        }
    }
}

// What an event answers that isn't turned away: of a finish its lateness, and who runs; where nobody does, "idle".
#[derive(Clone, Copy, PartialEq, Eq, Debug)]
pub struct Accepted {
    pub late: Option<i64>,
    pub turn: Option<Turn>,
}

// The state, handed back whole, and the reply.
#[derive(Clone, Copy)]
pub struct Answer {
    pub state: State,
    pub reply: Result<Accepted, Refusal>,
}

// What is kept after an event that isn't turned away, and what it answers. The words stay with the caller.
#[derive(Clone, Copy)]
pub struct Outcome {
    pub kept: Kept,
    pub accepted: Accepted,
}

// What a start answers: what the check says, and the state. "A refused start gives the number, the place and a state whose numbers are all zero", so the state
// stands beside the finding (`begun_of`).
#[derive(Clone, Copy)]
pub struct Started {
    pub finding: Result<(), Finding>,
    pub state: State,
}

impl State {
    // "a start that makes a state from a checked table"
    pub fn start(words: &[u32]) -> Started
        ensures { begun_of result ≡ start_of words.now }
    {
        let finding = table::check::check(words);
        let state = match finding {
            Ok(()) => start::fresh(words),
            Err(_) => start::zero(),
        };
        Started { finding, state }
    }

    // A release of a task at a time.
    pub fn release(self, task: u32, time: u64) -> Answer
        ensures { heard_of result ≡ release_of self task time }
    {
        self.answered(event::release(&self.words, self.length, self.kept, task, time))
    }

    // The running job's next step at a time.
    pub fn step(self, time: u64) -> Answer
        ensures { heard_of result ≡ step_of self time }
    {
        self.answered(event::step(&self.words, self.length, self.kept, time))
    }

    // The state with what is kept after an event; its words stay. "The reply is the number alone; the state comes back equal, clock included."
    fn answered(self, outcome: Result<Outcome, Refusal>) -> Answer
        ensures { heard_of result ≡ after self (outcome_of self.kept outcome) }
    {
        match outcome {
            Ok(Outcome { kept, accepted }) => Answer {
                state: State { kept, ..self },
                reply: Ok(accepted),
            },
            Err(refusal) => Answer {
                state: self,
                reply: Err(refusal),
            },
        }
    }
}
