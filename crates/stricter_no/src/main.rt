// The program `stricter` with the two charters exchanged, so that the new one grants more: what is written is `no`.
#![tactic(auto)]

use std::io;

fn main(rt: HostRuntime) -> io::Result<()> {
    commands::stricter(&rt)
}
