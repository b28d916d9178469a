// The program `run`: writes the log of the sheet in `sheet.bin` under the charter in `charter.bin` and the script in `script.bin`,
// or `refused N`.
#![tactic(auto)]

use std::io;

fn main(rt: HostRuntime) -> io::Result<()> {
    commands::run(&rt)
}
