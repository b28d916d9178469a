// The program `list` on a sheet that its charter refuses with 18: what is written is `refused 18` and the
// sentence below it, and nothing else.
#![tactic(auto)]

use std::io;

fn main(rt: HostRuntime) -> io::Result<()> {
    commands::list(&rt)
}
