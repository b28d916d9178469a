// The program `upgrade` in a folder without files: the sheet is read as empty, so that question 2 fails.
#![tactic(auto)]

use std::io;

fn main(rt: HostRuntime) -> io::Result<()> {
    commands::upgrade(&rt)
}
