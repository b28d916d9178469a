// Questions 1 to 18 of a sheet and a charter: the first that fails.
ghost use Rattle.std.specs.Prelude.{◌≡◌, List, ℕ, ◌<◌, ◌≤◌, ◌^◌, length, replicate};
ghost use Rattle.inference.specs.Rows.{Orderly, table_required};
ghost use Rattle.policy.specs.Loads.{AllHeld};
ghost use Rattle.policy.specs.Syntax.{Tree};
ghost use Rattle.service.specs.Later.{policy_then_entries};
ghost use Rattle.service.specs.Questions.{judged};
ghost use Rattle.service.specs.Told.{fault_number, first_failed, Ready, JudgesLater, Judges};

use crate::Judged;
use fit::entries::fit;
use inference::sheet::infer;
use inference::table::{CELLS, FEW_CELLS};
use policy::Policy;
use policy::read::{no_trees, read_policy};
use reading::Question;
use reading::system::read;
use wellformed::questions::policy_fault;

// The first of questions 12 to 18 that a policy and a table of components fail, whose groups are in order.
#[tactic(auto, using(crate::proofs::JudgeSteps::policy_judging))]
fn later_fault(policy: Policy, table: &[u16], components: usize) -> Option<Question>
    requires { components ≤ 32 }
    ensures { (trees : List Tree) → AllHeld policy.entry.charter.now policy.entry.nodes.now policy.entry.trees 0 trees
        → ((n : ℕ) → n < components → Orderly table.now n)
        → fault_number result ≡ policy_then_entries trees (table_required table.now components) }
{
    if let Some(question) = policy_fault(policy.charter, policy.nodes, policy.trees) {
        return Some(question);
    }
    fit(policy, table, components)
}

// Questions 11 to 18 of a charter and a table of components whose groups are in order, with a table for the charter's nodes.
#[tactic(auto, using(crate::proofs::JudgeSteps::policy_judging))]
fn judge_with(charter: &[u8], table: &[u16], components: usize, nodes: &mut [u16]) -> Judged
    requires { (components ≤ 32) × (length charter.now ≤ 4096) × (length nodes.old ≡ 384) }
    ensures { ((n : ℕ) → n < components → Orderly table.now n)
        → JudgesLater charter.now nodes.new (table_required table.now components) components result }
{
    // Never so; said for speed: the compiler then tests no index of the table again.
    if nodes.len() != 384 {
        return Judged {
            fault: Some(Question::Charter),
            components,
            trees: no_trees(),
        };
    }
    let read = read_policy(charter, nodes);
    let Ok(policy) = read else {
        return Judged {
            fault: Some(read.unwrap_err().question),
            components,
            trees: no_trees(),
        };
    };
    let trees = policy.trees;
    let policy = Policy {
        charter,
        nodes,
        trees,
    };
    Judged {
        fault: later_fault(policy, table, components),
        components,
        trees,
    }
}

/// Questions 7 to 18 of a sheet that reads, with a clear table for its components and a table for the charter's nodes.
#[tactic(auto, using(crate::proofs::JudgeSteps::judging))]
pub fn judge_read(sheet: &[u8], charter: &[u8], table: &mut [u16], nodes: &mut [u16]) -> Judged
    requires ready { Ready sheet.now charter.now table.old }
    requires cells { length nodes.old ≡ 384 }
    ensures { Judges sheet.now charter.now table.new nodes.new result }
{
    let found = infer(sheet, table);
    if let Some(question) = found.fault {
        return Judged {
            fault: Some(question),
            components: found.components,
            trees: no_trees(),
        };
    }
    judge_with(charter, table, found.components, nodes)
}

// The first of questions 7 to 18 that a sheet that reads fails, with a clear table of so many cells.
fn first_failed_by<const N: usize>(sheet: &[u8], charter: &[u8]) -> Option<Question>
    requires ready { Ready sheet.now charter.now (replicate N 0) }
    requires size { N < 2 ^ 32 }
    ensures { fault_number result ≡ first_failed (judged sheet.now charter.now) }
{
    let mut table = [0u16; N];
    let mut nodes = [0u16; 384];
    judge_read(sheet, charter, &mut table, &mut nodes).fault
}

/// Questions 1 to 18 of a sheet and a charter: the first that fails.
#[tactic(auto, using(crate::proofs::JudgeSteps::judging))]
pub fn first_failed(sheet: &[u8], charter: &[u8]) -> Option<Question>
    ensures { fault_number result ≡ first_failed (judged sheet.now charter.now) }
{
    let read = read(sheet, charter);
    let Ok(components) = read else {
        return Some(read.unwrap_err().question);
    };
    if components.value <= 4 {
        return first_failed_by::<FEW_CELLS>(sheet, charter);
    }
    first_failed_by::<CELLS>(sheet, charter)
}
