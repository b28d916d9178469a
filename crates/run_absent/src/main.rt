// The program `run` in a folder without files: each is read as empty, so that question 2 fails.
#![tactic(auto)]

use std::io;

fn main(rt: HostRuntime) -> io::Result<()> {
    commands::run(&rt)
}
