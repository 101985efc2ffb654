// The script of docs/SCRIPT.md as it is read: one line of bytes to a command or to what is wrong with it. Every public call answers for every line and
// every room. Answers are written by the crate `lines`.
#![tactic(auto)]

mod number;
pub mod read;
mod words;

// What a line says. A table says how many words it lends; `read::table_words` hands them out.
#[derive(Clone, Copy)]
pub enum Command {
    Table(usize),
    Check,
    Start,
    Release(u32, u64),
    Step(u64),
    Verdict,
    Show,
}
