// The program `stricter`: prints `yes` if the charter in `charter.bin` is no looser than the one in `before.bin`, and `no` otherwise.
#![tactic(auto)]

use std::io;

fn main(rt: HostRuntime) -> io::Result<()> {
    commands::stricter(&rt)
}
