// The service `check`: questions 1 to 19 of a sheet and a charter, and the interface into the lent output.
ghost use Rattle.std.specs.Prelude.{◌≡◌, ◌<◌, ◌≤◌, ◌^◌, replicate};
ghost use Rattle.inference.specs.Rows.{table_entries};
ghost use Rattle.inference.specs.Interface.{interface_bytes};
ghost use Rattle.service.specs.Told.{Ready, Delivered, Checked};

use crate::judging::judge_read;
use inference::table::{CELLS, FEW_CELLS};
use interface::{interface_len, write_interface};
use reading::Question;
use reading::system::read;

/// Question 19, and the interface.
pub fn deliver(table: &[u16], components: usize, output: &mut [u8]) -> Result<usize, Question>
    requires { components ≤ 32 }
    ensures { Delivered (interface_bytes (table_entries table.now components)) output.old
        output.new result }
{
    let len = interface_len(table, components);
    if output.len() < len {
        return Err(Question::Output);
    }
    write_interface(table, components, output);
    Ok(len)
}

// Questions 7 to 19 of a sheet that reads, with a clear table of so many cells, which has a row for each of its components.
#[tactic(auto, using(crate::proofs::CheckSteps::checking))]
fn check_by<const N: usize>(
    sheet: &[u8],
    charter: &[u8],
    output: &mut [u8],
) -> Result<usize, Question>
    requires ready { Ready sheet.now charter.now (replicate N 0) }
    requires size { N < 2 ^ 32 }
    ensures { Checked sheet.now charter.now output.old output.new result }
{
    let mut table = [0u16; N];
    let mut nodes = [0u16; 384];
    let judged = judge_read(sheet, charter, &mut table, &mut nodes);
    if let Some(question) = judged.fault {
        return Err(question);
    }
    deliver(&table, judged.components, output)
}

/// Checks a sheet against a charter. The answer and the output's final bytes are those of the definition `checked`, for any bytes
/// in all three slices. A sheet of at most four components has a small table to clear.
#[tactic(auto, using(crate::proofs::CheckSteps::checking))]
pub fn check(sheet: &[u8], charter: &[u8], output: &mut [u8]) -> Result<usize, Question>
    ensures { Checked sheet.now charter.now output.old output.new result }
{
    let read = read(sheet, charter);
    let Ok(components) = read else {
        return Err(read.unwrap_err().question);
    };
    if components.value <= 4 {
        return check_by::<FEW_CELLS>(sheet, charter, output);
    }
    check_by::<CELLS>(sheet, charter, output)
}
