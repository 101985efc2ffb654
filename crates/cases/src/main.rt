// The same player as `chair`, over a large script that the second program generated; what it must write is what the second program wrote (docs/CASES.md).
// A program of its own, since a program is run with one input.
#![tactic(auto)]

use std::io;

fn main(rt: HostRuntime) -> io::Result<()> {
    player::run::play(&rt)
}
