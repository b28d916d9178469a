// The service `slack`: for each entry of an accepted sheet and each group that it discloses to, the granted sum beside the needed one
// (document 02, Q-5).
#![tactic(auto)]

ghost use Rattle.std.specs.Prelude.{◌≡◌, List, ℕ, ◌+◌, ◌<◌, ◌≤◌, length, map, replicate, ◌^◌};
ghost use Rattle.inference.specs.Counts.{count_number};
ghost use Rattle.inference.specs.Interface.{head_then};
ghost use Rattle.inference.specs.Lists.{only, gather};
ghost use Rattle.inference.specs.Rows.{entry_at};
ghost use Rattle.interface.specs.Writes.{Stored};
ghost use Rattle.sharing.specs.Sums.{sum_count, add_rows};
ghost use Rattle.fit.specs.Covers.{sum_verdict, sum_verdicts, verdicts_of};
ghost use Rattle.service.specs.Told.{Ready, Delivered, Judges};
ghost use Rattle.slack.specs.Slack.{count_bytes, verdict_bytes, on_group, sums_bytes};
ghost use Rattle.slack.specs.Rows.{slack_at, slack_row, slack_rows};
ghost use Rattle.slack.specs.Told.{Tells, DeliveredSlack};

pub mod lengths;

use crate::lengths::slack_len;
use fit::entries::has_entry;
use fit::{Case, Covering, Sum, Sums};
use inference::table::{CELLS, Entry, FEW_CELLS, KINDS, Row};
use interface::entries::{disclosed_groups, permission_map};
use interface::writing::Output;
use policy::Policy;
use reading::Question;
use reading::system::read;
use service::Judged;
use service::judging::judge_read;
use sharing::{any_shared, sum_classes};

// A sum as it is stored: 65,535 is unlimited.
#[tactic(auto, using(crate::proofs::SlackSteps::slack_steps))]
fn number_of(sum: usize) -> usize
    ensures { result ≡ count_number (sum_count sum) }
{
    if sum < 4000000 { sum } else { 65535 }
}

// Writes a sum in two bytes, the low byte first.
#[tactic(auto, using(crate::proofs::SlackSteps::slack_steps))]
fn put_count(sum: usize, output: &mut Output)
    requires { output.old.next < 4200000000 }
    ensures stored { Stored output.old.bytes.now output.new.bytes.now output.old.next
        (count_bytes (sum_count sum)) output.new.next }
    ensures near { output.new.next ≤ output.old.next + 2 }
    ensures lent { output.new.bytes.ghost_name ≡ output.old.bytes.ghost_name }
{
    let number = number_of(sum);
    output.put(number % 256);
    output.put(number / 256 % 256);
}

// Writes a group, what is needed, and what is granted.
#[tactic(auto, using(crate::proofs::SlackSteps::slack_steps))]
fn put_sum(sum: Sum, output: &mut Output)
    requires { output.old.next < 4100000000 }
    ensures stored { Stored output.old.bytes.now output.new.bytes.now output.old.next
        (verdict_bytes (sum_verdict sum)) output.new.next }
    ensures lent { output.new.bytes.ghost_name ≡ output.old.bytes.ghost_name }
{
    output.put(sum.group);
    put_count(sum.needed, output);
    put_count(sum.granted, output);
}

// Writes the sums of an entry.
#[tactic(auto, using(crate::proofs::SlackSteps::slack_steps))]
fn put_each(sums: &[Sum], output: &mut Output)
    requires { (length sums.now ≤ 8) × (output.old.next < 4050000000) }
    ensures stored { Stored output.old.bytes.now output.new.bytes.now output.old.next
        (gather verdict_bytes (map sum_verdict sums.now)) output.new.next }
    ensures lent { output.new.bytes.ghost_name ≡ output.old.bytes.ghost_name }
{
    for &sum in sums {
        put_sum(sum, output);
    }
}

// Writes how many sums an entry has, and the sums, where there are any.
#[tactic(auto, using(crate::proofs::SlackSteps::slack_steps))]
fn put_sums(sums: Sums, output: &mut Output)
    requires { (sums.len ≤ 8) × (output.old.next < 4000000000) }
    ensures stored { Stored output.old.bytes.now output.new.bytes.now output.old.next
        (sums_bytes (sum_verdicts sums)) output.new.next }
    ensures lent { output.new.bytes.ghost_name ≡ output.old.bytes.ghost_name }
{
    if sums.len == 0 {
        return;
    }
    output.put(sums.len);
    put_each(&sums.items[..sums.len], output);
}

// Writes an entry with its slack.
#[tactic(auto, using(crate::proofs::SlackSteps::slack_steps))]
fn put_entry(entry: Entry, found: Covering, output: &mut Output)
    requires { (found.sums.len ≤ 8) × (output.old.next < 3000000000) }
    ensures stored { Stored output.old.bytes.now output.new.bytes.now output.old.next
        (head_then (entry_at entry.entry.table.now entry.entry.component entry.entry.kind) (sums_bytes (only on_group (verdicts_of found)))) output.new.next }
    ensures lent { output.new.bytes.ghost_name ≡ output.old.bytes.ghost_name }
{
    let groups = disclosed_groups(entry);
    output.put_head(entry, permission_map(entry, groups));
    put_sums(found.sums, output);
}

// Writes an entry, where there is one.
#[tactic(auto, using(crate::proofs::SlackSteps::slack_steps))]
fn put_kind(case: &Case, entry: Entry, output: &mut Output)
    requires { output.old.next < 3000000000 }
    ensures stored { Stored output.old.bytes.now output.new.bytes.now output.old.next
        (slack_at case.now.policy.charter.now case.now.policy.nodes.now case.now.policy.trees entry.entry.table.now case.now.sums.now
        entry.entry.component entry.entry.kind) output.new.next }
    ensures lent { output.new.bytes.ghost_name ≡ output.old.bytes.ghost_name }
{
    if !has_entry(entry) {
        return;
    }
    put_entry(entry, case.covering(entry), output);
}

// Writes the entries of a component.
#[tactic(auto, using(crate::proofs::SlackSteps::slack_steps))]
fn put_row(case: &Case, row: Row, output: &mut Output)
    requires { output.old.next < 2000000000 }
    ensures stored { Stored output.old.bytes.now output.new.bytes.now output.old.next
        (slack_row case.now.policy.charter.now case.now.policy.nodes.now case.now.policy.trees row.entry.table.now case.now.sums.now
        row.entry.component) output.new.next }
    ensures lent { output.new.bytes.ghost_name ≡ output.old.bytes.ghost_name }
{
    for kind in 0..KINDS {
        put_kind(case, row.entry(kind), output);
    }
}

// Writes the entries of the components of a table.
#[tactic(auto, using(crate::proofs::SlackSteps::slack_steps))]
fn put_table(case: &Case, table: &[u16], components: usize, output: &mut Output)
    requires { (components ≤ 32) × (output.old.next < 1000000000) }
    ensures stored { Stored output.old.bytes.now output.new.bytes.now output.old.next
        (slack_rows case.now.policy.charter.now case.now.policy.nodes.now case.now.policy.trees table.now case.now.sums.now components) output.new.next }
    ensures lent { output.new.bytes.ghost_name ≡ output.old.bytes.ghost_name }
{
    for component in 0..components {
        put_row(case, Row { table, component }, output);
    }
}

// Writes the slack of the components of a table from the output's first byte on; the number of bytes written.
fn write_slack(case: &Case, table: &[u16], components: usize, out: &mut [u8]) -> usize
    requires { components ≤ 32 }
    ensures { Stored out.old out.new 0
        (slack_rows case.now.policy.charter.now case.now.policy.nodes.now case.now.policy.trees table.now case.now.sums.now components) result }
{
    let mut output = Output {
        bytes: out,
        next: 0,
    };
    put_table(case, table, components, &mut output);
    output.next
}

// Question 19, and the slack.
#[tactic(auto, using(crate::proofs::LengthSteps::length_steps))]
fn deliver(
    case: &Case,
    table: &[u16],
    components: usize,
    output: &mut [u8],
) -> Result<usize, Question>
    requires { components ≤ 32 }
    ensures { Delivered
        (slack_rows case.now.policy.charter.now case.now.policy.nodes.now case.now.policy.trees table.now case.now.sums.now components)
        output.old output.new result }
{
    let len = slack_len(table, components);
    if output.len() < len {
        return Err(Question::Output);
    }
    write_slack(case, table, components, output);
    Ok(len)
}

// Question 19, and the slack by sums of the classes that are made first, in clear memory of so many numbers.
fn deliver_summed<const N: usize>(
    policy: Policy,
    table: &[u16],
    components: usize,
    output: &mut [u8],
) -> Result<usize, Question>
    requires { (components ≤ 32) × (N < 2 ^ 32) }
    ensures { Delivered
        (slack_rows policy.entry.charter.now policy.entry.nodes.now policy.entry.trees table.now (add_rows (replicate N 0) table.now 0 components) components)
        output.old output.new result }
{
    let mut sums = [0u32; N];
    sum_classes(table, components, &mut sums);
    let case = Case {
        policy,
        sums: &sums,
    };
    deliver(&case, table, components, output)
}

// The slack of any components. Where none of them share a count, no sums are made; for four components or fewer, few.
#[tactic(auto, using(crate::proofs::TellSteps::telling))]
fn deliver_slack(
    policy: Policy,
    table: &[u16],
    components: usize,
    output: &mut [u8],
) -> Result<usize, Question>
    requires { components ≤ 32 }
    ensures { DeliveredSlack policy.entry.charter.now policy.entry.nodes.now policy.entry.trees table.now components
        output.old output.new result }
{
    if !any_shared(table, components) {
        let case = Case { policy, sums: &[] };
        return deliver(&case, table, components, output);
    }
    if components <= 4 {
        return deliver_summed::<516>(policy, table, components, output);
    }
    deliver_summed::<4128>(policy, table, components, output)
}

/// What `slack` answers, from what questions 1 to 18 came to and the tables that they left.
#[tactic(auto, using(crate::proofs::TellSteps::telling))]
pub fn slack_judged(
    charter: &[u8],
    nodes: &[u16],
    table: &[u16],
    judged: Judged,
    output: &mut [u8],
) -> Result<usize, Question>
    requires { length nodes.now ≡ 384 }
    ensures { (sheet : List ℕ) → Judges sheet charter.now table.now nodes.now judged
        → Tells sheet charter.now output.old output.new result }
{
    if let Some(question) = judged.fault {
        return Err(question);
    }
    let policy = Policy {
        charter,
        nodes,
        trees: judged.trees,
    };
    deliver_slack(policy, table, judged.components, output)
}

// The slack of a sheet that reads, with a clear table of so many cells, which has a row for each of its components.
#[tactic(auto, using(crate::proofs::TellSteps::telling))]
fn slack_by<const N: usize>(
    sheet: &[u8],
    charter: &[u8],
    output: &mut [u8],
) -> Result<usize, Question>
    requires ready { Ready sheet.now charter.now (replicate N 0) }
    requires size { N < 2 ^ 32 }
    ensures { Tells sheet.now charter.now output.old output.new result }
{
    let mut table = [0u16; N];
    let mut nodes = [0u16; 384];
    let judged = judge_read(sheet, charter, &mut table, &mut nodes);
    slack_judged(charter, &nodes, &table, judged, output)
}

/// Tells the slack of a sheet under a charter. The answer and the output's final bytes are those of the definition `slack_told`, for any
/// bytes in all three slices. A sheet of at most four components has a small table to clear.
#[tactic(auto, using(crate::proofs::TellSteps::telling))]
pub fn slack(sheet: &[u8], charter: &[u8], output: &mut [u8]) -> Result<usize, Question>
    ensures { Tells sheet.now charter.now output.old output.new result }
{
    let read = read(sheet, charter);
    let Ok(components) = read else {
        return Err(read.unwrap_err().question);
    };
    if components.value <= 4 {
        return slack_by::<FEW_CELLS>(sheet, charter, output);
    }
    slack_by::<CELLS>(sheet, charter, output)
}
