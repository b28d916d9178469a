// The static library of the services for programs in C and Rust, which `rt lib` in this crate's folder writes as out/libvelimhaw_c.a. Each
// function calls the one of the same name in the crate `velimhaw`, has the same contract, and answers the same number.
#![tactic(auto)]

ghost use Rattle.velimhaw.specs.Codes.{CheckedAs, PlayedAs, ExplainedAs, ToldAs, UpgradedAs, DowngradedAs, ComparedAs};

/// Checks a sheet against a charter, and writes the interface into the output.
#[unsafe(no_mangle)]
pub extern "C" fn velimhaw_check(sheet: &[u8], charter: &[u8], output: &mut [u8]) -> u64
    ensures { CheckedAs sheet.now charter.now output.old output.new result }
{
    velimhaw::velimhaw_check(sheet, charter, output)
}

/// Plays a script on a sheet that its charter accepts, and writes a record of eight bytes for each move into the log.
#[unsafe(no_mangle)]
pub extern "C" fn velimhaw_play(sheet: &[u8], charter: &[u8], script: &[u8], log: &mut [u8]) -> u64
    ensures { PlayedAs sheet.now charter.now script.now log.old log.new result }
{
    velimhaw::velimhaw_play(sheet, charter, script, log)
}

/// Writes the sentence for the first uncovered permission of a sheet that question 18 refuses into the line; 64 where the sheet passes
/// questions 1 to 18.
#[unsafe(no_mangle)]
pub extern "C" fn velimhaw_explain(
    sheet: &[u8],
    charter: &[u8],
    names: &[u8],
    line: &mut [u8],
) -> u64
    ensures { ExplainedAs sheet.now charter.now names.now line.old line.new result }
{
    velimhaw::velimhaw_explain(sheet, charter, names, line)
}

/// Writes for each entry of a sheet that its charter accepts, and for each group that it discloses to, the granted sum beside the needed
/// one into the output.
#[unsafe(no_mangle)]
pub extern "C" fn velimhaw_slack(sheet: &[u8], charter: &[u8], output: &mut [u8]) -> u64
    ensures { ToldAs sheet.now charter.now output.old output.new result }
{
    velimhaw::velimhaw_slack(sheet, charter, output)
}

/// Writes the new form of an old sheet, purpose 0 at each component, into the output.
#[unsafe(no_mangle)]
pub extern "C" fn velimhaw_upgrade(sheet: &[u8], output: &mut [u8]) -> u64
    ensures { UpgradedAs sheet.now output.old output.new result }
{
    velimhaw::velimhaw_upgrade(sheet, output)
}

/// Writes the old form of a sheet whose components all have purpose 0 into the output.
#[unsafe(no_mangle)]
pub extern "C" fn velimhaw_downgrade(sheet: &[u8], output: &mut [u8]) -> u64
    ensures { DowngradedAs sheet.now output.old output.new result }
{
    velimhaw::velimhaw_downgrade(sheet, output)
}

/// Is charter `a` no looser than charter `b`? 1 for yes, 0 for no.
#[unsafe(no_mangle)]
pub extern "C" fn velimhaw_no_looser(a: &[u8], b: &[u8]) -> u64
    ensures { ComparedAs a.now b.now result }
{
    velimhaw::velimhaw_no_looser(a, b)
}
