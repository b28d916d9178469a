// The length of the slack, from the table of components alone: how many groups an entry discloses to tells how many bytes it has.
ghost use Rattle.std.specs.Prelude.{◌≡◌, List, ℕ, ◌+◌, ◌<◌, ◌≤◌, length};
ghost use Rattle.inference.specs.Rows.{path_at};
ghost use Rattle.policy.specs.declared.Trees.{Trees};
ghost use Rattle.slack.specs.Rows.{slack_at, slack_row, slack_rows};

use inference::rows::path_len;
use inference::table::{Entry, KINDS, Row};
use interface::entries::{disclosed_groups, permission_map};

// The length of an entry up to its map, the same for every kind.
#[tactic(auto, using(crate::proofs::LengthSteps::length_steps))]
fn head_len(row: Row) -> usize
    ensures value { result ≡ 4 + length (path_at row.entry.table.now row.entry.component) }
    ensures few { result ≤ 12 }
{
    4 + path_len(row.path())
}

// The length of an entry with its slack, five bytes for each group that it discloses to; 0 where there is no entry.
#[tactic(auto, using(crate::proofs::LengthSteps::length_steps))]
fn entry_len(entry: Entry, head: usize) -> usize
    requires { (head ≡ 4 + length (path_at entry.table.now entry.component)) × (head ≤ 12) }
    ensures { (c nodes : List ℕ) (trees : Trees) (sums : List ℕ)
        → result ≡ length (slack_at c nodes trees entry.entry.table.now sums entry.entry.component entry.entry.kind) }
{
    if !entry.is_used() {
        return 0;
    }
    let groups = disclosed_groups(entry);
    if permission_map(entry, groups) == 0 {
        return 0;
    }
    if groups == 0 {
        return head;
    }
    head + (1 + 5 * groups)
}

// The length of the entries of a component.
#[tactic(auto, using(crate::proofs::LengthSteps::length_steps))]
fn row_len(row: Row) -> usize
    ensures { (c nodes : List ℕ) (trees : Trees) (sums : List ℕ)
        → result ≡ length (slack_row c nodes trees row.entry.table.now sums row.entry.component) }
{
    let head = head_len(row);
    let mut len = 0;
    for kind in 0..KINDS {
        len += entry_len(row.entry(kind), head);
    }
    len
}

/// The length of the slack: whatever the policy and the sums, it is the same.
#[tactic(auto, using(crate::proofs::LengthSteps::length_steps))]
pub fn slack_len(table: &[u16], components: usize) -> usize
    requires { components ≤ 32 }
    ensures { (c nodes : List ℕ) (trees : Trees) (sums : List ℕ)
        → result ≡ length (slack_rows c nodes trees table.now sums components) }
{
    let mut len = 0;
    for component in 0..components {
        len += row_len(Row::new(table, component));
    }
    len
}
