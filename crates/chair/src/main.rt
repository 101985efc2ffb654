// Plays a script: reads commands from standard input, and answers them line by line on standard output (docs/SCRIPT.md).
#![tactic(auto)]

use std::io;

fn main(rt: HostRuntime) -> io::Result<()> {
    player::run::play(&rt)
}
