// Questions 16 to 18: does the policy satisfy the interface that a table of components holds?
ghost use Rattle.std.specs.Prelude.{◌≡◌, List, cond, ◌&&◌, ℕ, ◌<◌, ◌≤◌, ◌-◌, ◌/◌, ◌%◌, min};
ghost use Rattle.reading.specs.Told.{numbered, failed_below};
ghost use Rattle.inference.specs.Interface.{Required, holds_any};
ghost use Rattle.inference.specs.Rows.{
  Orderly,
  is_set,
  cell,
  path_at,
  entry_at,
  row_entries,
  table_entries,
  table_required,
};
ghost use Rattle.sharing.specs.Sums.{Summed};
ghost use Rattle.policy.specs.Syntax.{Tree};
ghost use Rattle.policy.specs.Loads.{AllHeld};
ghost use Rattle.fit.specs.Givers.{givers_in};
ghost use Rattle.fit.specs.Covers.{rows_fault};
ghost use Rattle.fit.specs.Faults.{entry_fault, entries_fault};

use crate::Case;
use crate::grants::tree_of;
use inference::table::{Entry, Row};
use interface::entries::{disclosed_groups, permission_map};
use policy::{Policy, Span};
use reading::Question;
use sharing::{any_shared, sum_classes};

/// Is there an entry: does the component need any permission for data of the kind? Where the kind is not marked, it needs none.
#[tactic(auto, using(crate::proofs::EntryLaws::fault_steps))]
pub fn has_entry(entry: Entry<'_>) -> bool
    ensures { result ≡ (is_set (cell entry.entry.table.now entry.entry.component entry.entry.kind 11)
        && holds_any (entry_at entry.entry.table.now entry.entry.component entry.entry.kind)) }
{
    if !entry.is_used() {
        return false;
    }
    let groups = disclosed_groups(entry);
    permission_map(entry, groups) != 0
}

// The earlier of two questions that fail, where any does.
#[tactic(auto, using(crate::proofs::EntrySteps::earlier_steps))]
fn earlier(a: Option<Question>, b: Option<Question>) -> Option<Question>
    ensures { (bound n m : ℕ) → numbered a ≡ failed_below bound n → numbered b ≡ failed_below bound m
        → numbered result ≡ failed_below bound (min n m) }
{
    let Some(first) = a else {
        return b;
    };
    let Some(other) = b else {
        return a;
    };
    if other.number() < first.number() {
        b
    } else {
        a
    }
}

impl<'a> Case<'a> {
    // The first of questions 17 and 18 that an entry fails in the kind's tree.
    #[tactic(auto, using(crate::proofs::EntrySteps::entry_steps))]
    fn tree_fault(&self, tree: Span, entry: Entry<'_>) -> Option<Question>
        requires { tree.to ≤ 64 }
        ensures { numbered result ≡ failed_below 19 (rows_fault self.now.policy.charter.now self.now.policy.nodes.now
            (givers_in self.now.policy.charter.now self.now.policy.nodes.now
            (path_at entry.entry.table.now entry.entry.component) tree.from (tree.to - tree.from))
            entry.entry.table.now self.now.sums.now entry.entry.component entry.entry.kind) }
    {
        let found = self.cover(tree, entry);
        if !found.reached {
            return Some(Question::Reached);
        }
        match found.lacking() {
            Some(_) => Some(Question::Covered),
            None => None,
        }
    }

    // The first of questions 16 to 18 that an entry fails.
    #[tactic(auto, using(crate::proofs::EntryLaws::fault_steps))]
    fn entry_fault(&self, entry: Entry<'_>) -> Option<Question>
        ensures { (policy : List Tree) → AllHeld self.now.policy.charter.now self.now.policy.nodes.now self.now.policy.trees 0 policy
            → Orderly entry.entry.table.now entry.entry.component → (required : Required)
            → Summed entry.entry.table.now self.now.sums.now required entry.entry.component entry.entry.kind
            → numbered result ≡ failed_below 19 (cond (is_set (cell entry.entry.table.now entry.entry.component entry.entry.kind 11))
            (entry_fault policy required (entry_at entry.entry.table.now entry.entry.component entry.entry.kind)) 19) }
    {
        if !has_entry(entry) {
            return None;
        }
        match tree_of(self.policy.trees, entry.kind) {
            Some(tree) => self.tree_fault(tree, entry),
            None => Some(Question::Tree),
        }
    }

    // The first that an entry of a component fails.
    #[tactic(auto, using(crate::proofs::EntryLaws::fault_steps))]
    fn row_fault(&self, row: Row<'_>) -> Option<Question>
        ensures { (policy : List Tree) → AllHeld self.now.policy.charter.now self.now.policy.nodes.now self.now.policy.trees 0 policy
            → Orderly row.entry.table.now row.entry.component → (required : Required)
            → ((k : ℕ) → k < 16 → Summed row.entry.table.now self.now.sums.now required row.entry.component k)
            → numbered result ≡ failed_below 19 (entries_fault policy required (row_entries row.entry.table.now row.entry.component)) }
    {
        let Row { table, component } = row;
        let mut first = None;
        for kind in 0..16 {
            let entry = Entry {
                table,
                component,
                kind,
            };
            first = earlier(first, self.entry_fault(entry));
        }
        first
    }

    // The first that an entry of any component fails.
    #[tactic(auto, using(crate::proofs::EntryLaws::fault_steps))]
    fn rows_fault(&self, table: &[u16], components: usize) -> Option<Question>
        requires { components ≤ 32 }
        ensures { (policy : List Tree) → AllHeld self.now.policy.charter.now self.now.policy.nodes.now self.now.policy.trees 0 policy
            → ((n : ℕ) → n < components → Orderly table.now n)
            → (required : Required) → ((n k : ℕ) → n < components → k < 16 → Summed table.now self.now.sums.now required n k)
            → numbered result ≡ failed_below 19 (entries_fault policy required (table_entries table.now components)) }
    {
        let mut first = None;
        for component in 0..components {
            first = earlier(first, self.row_fault(Row { table, component }));
        }
        first
    }
}

// The same with the sums made first, in clear memory with a row of 129 cells for each component.
#[tactic(auto, using(crate::proofs::EntryLaws::fault_steps))]
fn shared_fault<const SUMS: usize>(
    policy: Policy<'_>,
    table: &[u16],
    components: usize,
) -> Option<Question>
    requires { (components ≤ SUMS / 129) × (SUMS / 129 ≤ 32) × (SUMS % 129 ≡ 0) }
    ensures { (trees : List Tree) → AllHeld policy.entry.charter.now policy.entry.nodes.now policy.entry.trees 0 trees
        → ((n : ℕ) → n < components → Orderly table.now n)
        → numbered result ≡ failed_below 19 (entries_fault trees (table_required table.now components) (table_entries table.now components)) }
{
    let mut sums = [0u32; SUMS];
    sum_classes(table, components, &mut sums);
    let case = Case {
        policy,
        sums: &sums,
    };
    case.rows_fault(table, components)
}

/// The first of questions 16 to 18 that any entry of a table fails under a policy. Where no components share a count, no sums are made.
#[tactic(auto, using(crate::proofs::EntryLaws::fault_steps))]
pub fn fit(policy: Policy<'_>, table: &[u16], components: usize) -> Option<Question>
    requires { components ≤ 32 }
    ensures { (trees : List Tree) → AllHeld policy.entry.charter.now policy.entry.nodes.now policy.entry.trees 0 trees
        → ((n : ℕ) → n < components → Orderly table.now n)
        → numbered result ≡ failed_below 19 (entries_fault trees (table_required table.now components) (table_entries table.now components)) }
{
    if !any_shared(table, components) {
        return Case { policy, sums: &[] }.rows_fault(table, components);
    }
    if components <= 4 {
        shared_fault::<516>(policy, table, components)
    } else {
        shared_fault::<4128>(policy, table, components)
    }
}
