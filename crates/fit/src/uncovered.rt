// The first permission of an interface that the policy does not cover: entries in order; read, write, access, then
// disclose by group.
ghost use Rattle.std.specs.Prelude.{◌≡◌, IfSome, List, cond, ℕ, ◌<◌, ◌≤◌};
ghost use Rattle.std.proofs.Math.Option.{none};
ghost use Rattle.inference.specs.Interface.{Required};
ghost use Rattle.inference.specs.Rows.{Orderly, is_set, cell, entry_at, row_entries, table_entries, table_required};
ghost use Rattle.sharing.specs.Sums.{Summed};
ghost use Rattle.policy.specs.Syntax.{Tree};
ghost use Rattle.policy.specs.Loads.{AllHeld};
ghost use Rattle.fit.specs.Covers.{told_in};
ghost use Rattle.fit.specs.Uncovered.{first_missing, first_uncovered};
ghost use Rattle.fit.specs.Search.{uncovered_at};

use crate::{Case, Missing, Permission};
use inference::table::{Entry, Row};
use policy::Policy;
use sharing::sum_classes;

impl<'a> Case<'a> {
    // The first permission of an entry that is not covered; a kind that is not marked has no entry.
    #[tactic(auto, using(crate::proofs::SearchLaws::search_steps))]
    fn entry_missing(&self, entry: Entry<'_>) -> Option<Permission>
        ensures { (policy : List Tree) → AllHeld self.now.policy.charter.now self.now.policy.nodes.now self.now.policy.trees 0 policy
            → Orderly entry.entry.table.now entry.entry.component → (required : Required)
            → Summed entry.entry.table.now self.now.sums.now required entry.entry.component entry.entry.kind
            → cond (is_set (cell entry.entry.table.now entry.entry.component entry.entry.kind 11))
            (first_missing policy required (entry_at entry.entry.table.now entry.entry.component entry.entry.kind)) none
            ≡ told_in result }
    {
        if !entry.is_used() {
            return None;
        }
        self.covering(entry).lacking()
    }

    // The first uncovered permission of a component.
    #[tactic(auto, using(crate::proofs::SearchLaws::search_steps))]
    fn row_missing(&self, row: Row<'_>) -> Option<Missing>
        ensures component_value { (policy : List Tree)
            → AllHeld self.now.policy.charter.now self.now.policy.nodes.now self.now.policy.trees 0 policy
            → Orderly row.entry.table.now row.entry.component → (required : Required)
            → ((k : ℕ) → k < 16 → Summed row.entry.table.now self.now.sums.now required row.entry.component k)
            → first_uncovered policy required (row_entries row.entry.table.now row.entry.component) ≡ uncovered_at row.entry.table.now result }
        ensures few { IfSome result (λ m. m.component < 32) }
    {
        let Row { table, component } = row;
        for kind in 0..16 {
            let entry = Entry {
                table,
                component,
                kind,
            };
            if let Some(permission) = self.entry_missing(entry) {
                return Some(Missing {
                    component,
                    kind,
                    permission,
                });
            }
        }
        None
    }

    // The first uncovered permission of all components.
    #[tactic(auto, using(crate::proofs::SearchLaws::search_steps))]
    fn rows_missing(&self, table: &[u16], components: usize) -> Option<Missing>
        requires { components ≤ 32 }
        ensures components_value { (policy : List Tree)
            → AllHeld self.now.policy.charter.now self.now.policy.nodes.now self.now.policy.trees 0 policy
            → ((n : ℕ) → n < components → Orderly table.now n)
            → (required : Required) → ((n k : ℕ) → n < components → k < 16 → Summed table.now self.now.sums.now required n k)
            → first_uncovered policy required (table_entries table.now components) ≡ uncovered_at table.now result }
        ensures few { IfSome result (λ m. m.component < 32) }
    {
        for component in 0..components {
            if let Some(missing) = self.row_missing(Row { table, component }) {
                return Some(missing);
            }
        }
        None
    }
}

/// The first uncovered permission of the interface that a table holds, with the sums of its classes.
#[tactic(auto, using(crate::proofs::SearchLaws::search_steps))]
pub fn first_uncovered(policy: Policy<'_>, table: &[u16], components: usize) -> Option<Missing>
    requires { components ≤ 32 }
    ensures components_value { (trees : List Tree) → AllHeld policy.entry.charter.now policy.entry.nodes.now policy.entry.trees 0 trees
        → ((n : ℕ) → n < components → Orderly table.now n)
        → first_uncovered trees (table_required table.now components) (table_entries table.now components)
        ≡ uncovered_at table.now result }
    ensures few { IfSome result (λ m. m.component < 32) }
{
    let mut sums = [0u32; 4128];
    sum_classes(table, components, &mut sums);
    let case = Case {
        policy,
        sums: &sums,
    };
    case.rows_missing(table, components)
}
