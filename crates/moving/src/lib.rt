// The services `upgrade` and `downgrade`: an old sheet, whose components state no purpose, into the new form, and back.
#![tactic(auto)]

ghost use Rattle.encoding.specs.Copying.{copy_of};
ghost use Rattle.moving.specs.Told.{Upgraded, Downgraded, Movable, Moved};

use encoding::walking::StoredSheet;
use reading::system::read_in;
use reading::{Dialect, Question};

// How many bytes a sheet has at most.
const LONGEST: usize = 4096;

// Question 19, and a sheet's stored form in another dialect, which has `len` bytes.
#[tactic(auto, using(crate::proofs::MoveSteps::delivering))]
fn deliver(
    sheet: &StoredSheet,
    to: Dialect,
    len: usize,
    output: &mut [u8],
) -> Result<usize, Question>
    requires { Movable sheet.now.dialect to sheet.now.bytes.now len }
    ensures { Moved (copy_of sheet.now.dialect to sheet.now.bytes.now) output.old output.new result }
{
    if output.len() < len {
        return Err(Question::Output);
    }
    sheet.copy_to(to, output);
    Ok(len)
}

/// Turns an old sheet into the new form, purpose 0 at each component. The answer and the output's final bytes are those of the
/// definition `upgraded`, for any bytes in both slices.
#[tactic(auto, using(crate::proofs::MoveSteps::upgrading))]
pub fn upgrade(sheet: &[u8], output: &mut [u8]) -> Result<usize, Question>
    ensures { Upgraded sheet.now output.old output.new result }
{
    let read = read_in(Dialect::Old, sheet, b"");
    let Ok(components) = read else {
        return Err(read.unwrap_err().question);
    };
    let len = sheet.len() + components.value;
    if LONGEST < len {
        return Err(Question::Length);
    }
    let old = StoredSheet {
        dialect: Dialect::Old,
        bytes: sheet,
    };
    deliver(&old, Dialect::Current, len, output)
}

/// Turns a sheet back into the old form, where each component has purpose 0. The answer and the output's final bytes are those of the
/// definition `downgraded`, for any bytes in both slices.
#[tactic(auto, using(crate::proofs::MoveSteps::downgrading))]
pub fn downgrade(sheet: &[u8], output: &mut [u8]) -> Result<usize, Question>
    ensures { Downgraded sheet.now output.old output.new result }
{
    let read = read_in(Dialect::Current, sheet, b"");
    let Ok(components) = read else {
        return Err(read.unwrap_err().question);
    };
    let current = StoredSheet {
        dialect: Dialect::Current,
        bytes: sheet,
    };
    if !current.all_zero() {
        return Err(Question::Purposes);
    }
    let len = sheet.len() - components.value;
    deliver(&current, Dialect::Old, len, output)
}
