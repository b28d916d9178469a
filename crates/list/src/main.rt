// The program `list`: prints the interface of the sheet in `sheet.bin` under the charter in `charter.bin`, or `refused N`, and below
// 18 the sentence, with the names in `names.bin`.
#![tactic(auto)]

use std::io;

fn main(rt: HostRuntime) -> io::Result<()> {
    commands::list(&rt)
}
