// The program `downgrade` on a sheet with purpose 1, which has no old form: what is written is `refused 41`, and nothing else.
#![tactic(auto)]

use std::io;

fn main(rt: HostRuntime) -> io::Result<()> {
    commands::downgrade(&rt)
}
