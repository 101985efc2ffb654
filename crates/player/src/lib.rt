// A player of scripts: what is kept between the lines of a script, the answer to one line, and the whole from standard input to standard output.
// The programs `chair` and `cases` are calls of `run::play`.
#![tactic(auto)]

use crate::limits::WORDS;
use dispatch::State;

pub mod answer;
mod limits;
pub mod run;
pub mod show;

// What is kept between lines: the words that the last table lent, and how many; the dispatcher's state; and how many lines there were.
// Fixed memory: no heap, so the words stand in an array with their number beside it.
#[derive(Clone, Copy)]
pub struct Session {
    pub words: [u32; WORDS],
    pub length: usize,
    pub state: State,
    pub lines: u64,
}

// The session after a line, and how many bytes of what was lent its answer has, as std's `read` says it: `Plays` holds it.
#[derive(Clone, Copy)]
pub struct Answered {
    pub session: Session,
    pub bytes: usize,
}
