// What reading a script and answering it share: what may be wrong with a line, and how a text goes into a lent room. The definitions of texts are in specs/:
// bytes, decimal numbers, and what it is to write a text into a lent room.
#![tactic(auto)]

pub mod room;

// What is wrong with a line that is no command.
#[derive(Clone, Copy)]
pub enum Fault {
    Unknown,
    Missing,
    Malformed,
    Large,
    LeftOver,
    TooLong,
}
