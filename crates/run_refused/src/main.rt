// The program `run` on a sheet that its charter refuses with 18: what is written is `refused 18`, and nothing else.
#![tactic(auto)]

use std::io;

fn main(rt: HostRuntime) -> io::Result<()> {
    commands::run(&rt)
}
