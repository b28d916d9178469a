// The program `upgrade`: writes the new form of the old sheet in `sheet.bin`, or `refused N`.
#![tactic(auto)]

use std::io;

fn main(rt: HostRuntime) -> io::Result<()> {
    commands::upgrade(&rt)
}
