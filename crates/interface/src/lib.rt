// The interface's bytes, from the table of what components need: how many, and where they go.
#![tactic(auto)]

pub mod entries;
pub mod writing;

ghost use Rattle.std.specs.Prelude.{◌≡◌, ◌≤◌, length};
ghost use Rattle.inference.specs.Rows.{table_entries};
ghost use Rattle.inference.specs.Interface.{interface_bytes};
ghost use Rattle.interface.specs.Writes.{Stored};

use crate::writing::Output;
use inference::table::Row;

/// The length of the interface.
#[tactic(auto, using(crate::proofs::InterfaceSteps::interface_steps))]
pub fn interface_len(table: &[u16], components: usize) -> usize
    requires { components ≤ 32 }
    ensures { result ≡ length (interface_bytes (table_entries table.now components)) }
{
    let mut len = 0;
    for component in 0..components {
        len += entries::row_len(Row { table, component });
    }
    len
}

/// Writes the interface from the output's first byte on; the number of bytes written.
#[tactic(auto, using(crate::proofs::InterfaceSteps::interface_steps))]
pub fn write_interface(table: &[u16], components: usize, out: &mut [u8]) -> usize
    requires { components ≤ 32 }
    ensures { Stored out.old out.new 0 (interface_bytes (table_entries table.now components)) result }
{
    let mut output = Output {
        bytes: out,
        next: 0,
    };
    output.put_table(table, components);
    output.next
}
