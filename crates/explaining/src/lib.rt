// The service `explain`: the sentence for a sheet that question 18 refuses (document 02, Q-1).
#![tactic(auto)]

ghost use Rattle.std.specs.Prelude.{◌≡◌, List, ℕ, ◌<◌, ◌≤◌, ◌^◌, length, replicate};
ghost use Rattle.reading.specs.Told.{path_of};
ghost use Rattle.inference.specs.Rows.{Orderly, table_entries, table_required};
ghost use Rattle.policy.specs.Syntax.{Tree};
ghost use Rattle.policy.specs.Loads.{AllHeld};
ghost use Rattle.fit.specs.Covers.{permission_in};
ghost use Rattle.fit.specs.Uncovered.{first_uncovered};
ghost use Rattle.naming.specs.Sentence.{sentence};
ghost use Rattle.naming.specs.Told.{names_at_places};
ghost use Rattle.service.specs.Told.{Reads, Ready, Delivered, Judges};
ghost use Rattle.explaining.specs.Told.{Says, Explained, ExaminedAs};

use fit::Missing;
use fit::uncovered::first_uncovered;
use inference::table::{CELLS, FEW_CELLS, Row};
use naming::names::read_names;
use naming::sentence::Names;
use policy::Policy;
use reading::system::read;
use reading::{Path, Question};
use service::Judged;
use service::judging::judge_read;
use slack::slack_judged;

/// What `slack` answers, and what `explain` answers.
#[derive(Clone, Copy)]
pub struct Examined {
    pub told: Result<usize, Question>,
    pub explained: Result<usize, Question>,
}

// Question 19, and the sentence. Into no memory at all nothing is stored: that tells the sentence's length.
fn say(names: Names, path: Path, missing: Missing, line: &mut [u8]) -> Result<usize, Question>
    ensures { Delivered (sentence (names_at_places names.entry.file.now names.entry.groups.now names.entry.kinds.now)
        (record { path = path_of path; permission = permission_in missing.permission; kind = missing.kind }))
        line.old line.new result }
{
    let len = names.put_sentence(path, missing, &mut []);
    if line.len() < len {
        return Err(Question::Output);
    }
    names.put_sentence(path, missing, line);
    Ok(len)
}

// Question 40, and the sentence for the first uncovered permission.
#[tactic(auto, using(crate::proofs::ExplainSteps::explaining))]
fn explain_missing(
    names: &[u8],
    policy: Policy,
    table: &[u16],
    components: usize,
    line: &mut [u8],
) -> Result<usize, Question>
    requires { components ≤ 32 }
    ensures { (trees : List Tree) → AllHeld policy.entry.charter.now policy.entry.nodes.now policy.entry.trees 0 trees
        → ((n : ℕ) → n < components → Orderly table.now n)
        → Says names.now (first_uncovered trees (table_required table.now components) (table_entries table.now components))
        line.old line.new result }
{
    let mut groups = [0u16; 64];
    let mut kinds = [0u16; 16];
    let read = read_names(names, &mut groups, &mut kinds);
    let Ok(_) = read else {
        return Err(read.unwrap_err().question);
    };
    // There is one where question 18 failed (`refused_uncovered`).
    let Some(missing) = first_uncovered(policy, table, components) else {
        return Ok(0);
    };
    let names = Names {
        file: names,
        groups: &groups,
        kinds: &kinds,
    };
    let row = Row {
        table,
        component: missing.component,
    };
    say(names, row.path(), missing, line)
}

// What `explain` answers, from what questions 1 to 18 came to and the tables that they left.
#[tactic(auto, using(crate::proofs::ExplainSteps::explaining))]
fn explain_judged(
    names: &[u8],
    charter: &[u8],
    nodes: &[u16],
    table: &[u16],
    judged: Judged,
    line: &mut [u8],
) -> Result<usize, Question>
    requires { length nodes.now ≡ 384 }
    ensures { (sheet : List ℕ) → Reads sheet charter.now
        → Judges sheet charter.now table.now nodes.now judged
        → Explained sheet charter.now names.now line.old line.new result }
{
    let Some(question) = judged.fault else {
        return Ok(0);
    };
    let Question::Covered = question else {
        return Err(question);
    };
    let policy = Policy {
        charter,
        nodes,
        trees: judged.trees,
    };
    explain_missing(names, policy, table, judged.components, line)
}

// Both services of a sheet that reads, with a clear table of so many cells, which has a row for each of its components.
#[tactic(auto, using(crate::proofs::ExplainSteps::explaining))]
fn examine_by<const N: usize>(
    sheet: &[u8],
    charter: &[u8],
    names: &[u8],
    output: &mut [u8],
    line: &mut [u8],
) -> Examined
    requires ready { Ready sheet.now charter.now (replicate N 0) }
    requires size { N < 2 ^ 32 }
    ensures { ExaminedAs sheet.now charter.now names.now output.old output.new
        line.old line.new result }
{
    let mut table = [0u16; N];
    let mut nodes = [0u16; 384];
    let judged = judge_read(sheet, charter, &mut table, &mut nodes);
    Examined {
        told: slack_judged(charter, &nodes, &table, judged, output),
        explained: explain_judged(names, charter, &nodes, &table, judged, line),
    }
}

/// Tells the slack of a sheet under a charter and, where question 18 refuses it, writes the sentence into the line: both services in
/// one walk of the sheet.
#[tactic(auto, using(crate::proofs::ExplainSteps::explaining))]
pub fn examine(
    sheet: &[u8],
    charter: &[u8],
    names: &[u8],
    output: &mut [u8],
    line: &mut [u8],
) -> Examined
    ensures { ExaminedAs sheet.now charter.now names.now output.old output.new
        line.old line.new result }
{
    let read = read(sheet, charter);
    let Ok(components) = read else {
        let question = read.unwrap_err().question;
        return Examined {
            told: Err(question),
            explained: Err(question),
        };
    };
    if components.value <= 4 {
        return examine_by::<FEW_CELLS>(sheet, charter, names, output, line);
    }
    examine_by::<CELLS>(sheet, charter, names, output, line)
}

// Explains a sheet that reads, with a clear table of so many cells, which has a row for each of its components.
#[tactic(auto, using(crate::proofs::ExplainSteps::explaining))]
fn explain_by<const N: usize>(
    sheet: &[u8],
    charter: &[u8],
    names: &[u8],
    line: &mut [u8],
) -> Result<usize, Question>
    requires ready { Ready sheet.now charter.now (replicate N 0) }
    requires size { N < 2 ^ 32 }
    ensures { Explained sheet.now charter.now names.now line.old line.new result }
{
    let mut table = [0u16; N];
    let mut nodes = [0u16; 384];
    let judged = judge_read(sheet, charter, &mut table, &mut nodes);
    explain_judged(names, charter, &nodes, &table, judged, line)
}

/// Explains why question 18 refuses a sheet. The answer and the line's final bytes are those of the definition `explained`, for any
/// bytes in all four slices.
#[tactic(auto, using(crate::proofs::ExplainSteps::explaining))]
pub fn explain(
    sheet: &[u8],
    charter: &[u8],
    names: &[u8],
    line: &mut [u8],
) -> Result<usize, Question>
    ensures { Explained sheet.now charter.now names.now line.old line.new result }
{
    let read = read(sheet, charter);
    let Ok(components) = read else {
        return Err(read.unwrap_err().question);
    };
    if components.value <= 4 {
        return explain_by::<FEW_CELLS>(sheet, charter, names, line);
    }
    explain_by::<CELLS>(sheet, charter, names, line)
}
