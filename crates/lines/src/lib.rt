// The answers of docs/SCRIPT.md as they are written: each public call of `write` puts one line into a lent buffer. Every call answers for every value and
// every buffer.
#![tactic(auto)]

mod pen;
mod texts;
pub mod write;

// What a job does next, with the resource that it locks or unlocks.
#[derive(Clone, Copy)]
pub enum Doing {
    Lock(u32),
    Unlock(u32),
    Finish,
}
