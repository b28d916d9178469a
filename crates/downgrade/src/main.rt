// The program `downgrade`: writes the old form of the sheet in `sheet.bin`, or `refused N`.
#![tactic(auto)]

use std::io;

fn main(rt: HostRuntime) -> io::Result<()> {
    commands::downgrade(&rt)
}
