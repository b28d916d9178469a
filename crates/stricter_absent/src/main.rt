// The program `stricter` in a folder without files: both charters are read as empty, which fails question 11, so that it says `no`.
#![tactic(auto)]

use std::io;

fn main(rt: HostRuntime) -> io::Result<()> {
    commands::stricter(&rt)
}
