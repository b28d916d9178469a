// The services as programs in C and Rust call them; the crate `velimhaw_c` exports them in a static library. An answer is one number:
// below 64 it is the number of the question that failed, from 64 on the call was accepted and the length written, or the number of moves,
// is 64 less. Of `velimhaw_no_looser`, which refuses nothing, it is 1 for yes and 0 for no.
#![tactic(auto)]

ghost use Rattle.std.specs.Prelude.{◌≡◌};
ghost use Rattle.service.specs.Told.{told};
ghost use Rattle.velimhaw.specs.Codes.{code_of, CheckedAs, PlayedAs, ExplainedAs, ToldAs, UpgradedAs, DowngradedAs, ComparedAs};

use comparing::no_looser;
use execution::play;
use explaining::explain;
use moving::{downgrade, upgrade};
use reading::Question;
use service::checking::check;
use slack::slack;

// An answer as one number. No length comes near the bound; one that did would be told as 63, which is no question's number.
#[tactic(auto, using(crate::proofs::CodeSteps::code_steps))]
fn code(answer: Result<usize, Question>) -> u64
    ensures { result ≡ code_of (told answer) }
{
    match answer {
        Ok(n) => { if n < 4294967296 { (n + 64) as u64 } else { 63 } }
        Err(question) => u64::from(question),
    }
}

/// Checks a sheet against a charter, and writes the interface into the output.
#[tactic(auto, using(crate::proofs::CodeSteps::answer_steps))]
pub fn velimhaw_check(sheet: &[u8], charter: &[u8], output: &mut [u8]) -> u64
    ensures { CheckedAs sheet.now charter.now output.old output.new result }
{
    code(check(sheet, charter, output))
}

/// Plays a script on a sheet that its charter accepts, and writes a record of eight bytes for each move into the log.
#[tactic(auto, using(crate::proofs::CodeSteps::answer_steps))]
pub fn velimhaw_play(sheet: &[u8], charter: &[u8], script: &[u8], log: &mut [u8]) -> u64
    ensures { PlayedAs sheet.now charter.now script.now log.old log.new result }
{
    code(play(sheet, charter, script, log))
}

/// Writes the sentence for the first uncovered permission of a sheet that question 18 refuses into the line; 64 where the sheet passes
/// questions 1 to 18.
#[tactic(auto, using(crate::proofs::CodeSteps::answer_steps))]
pub fn velimhaw_explain(sheet: &[u8], charter: &[u8], names: &[u8], line: &mut [u8]) -> u64
    ensures { ExplainedAs sheet.now charter.now names.now line.old line.new result }
{
    code(explain(sheet, charter, names, line))
}

/// Writes for each entry of a sheet that its charter accepts, and for each group that it discloses to, the granted sum beside the needed
/// one into the output.
#[tactic(auto, using(crate::proofs::CodeSteps::answer_steps))]
pub fn velimhaw_slack(sheet: &[u8], charter: &[u8], output: &mut [u8]) -> u64
    ensures { ToldAs sheet.now charter.now output.old output.new result }
{
    code(slack(sheet, charter, output))
}

/// Writes the new form of an old sheet, purpose 0 at each component, into the output.
#[tactic(auto, using(crate::proofs::CodeSteps::answer_steps))]
pub fn velimhaw_upgrade(sheet: &[u8], output: &mut [u8]) -> u64
    ensures { UpgradedAs sheet.now output.old output.new result }
{
    code(upgrade(sheet, output))
}

/// Writes the old form of a sheet whose components all have purpose 0 into the output.
#[tactic(auto, using(crate::proofs::CodeSteps::answer_steps))]
pub fn velimhaw_downgrade(sheet: &[u8], output: &mut [u8]) -> u64
    ensures { DowngradedAs sheet.now output.old output.new result }
{
    code(downgrade(sheet, output))
}

/// Is charter `a` no looser than charter `b`? 1 for yes, 0 for no.
#[tactic(auto, using(crate::proofs::CodeSteps::answer_steps))]
pub fn velimhaw_no_looser(a: &[u8], b: &[u8]) -> u64
    ensures { ComparedAs a.now b.now result }
{
    if no_looser(a, b) { 1 } else { 0 }
}
