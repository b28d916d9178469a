// What a policy grants of what an entry needs: which needed flags are granted and, for each group disclosed to, the
// granted sum beside the needed one; and the first of them that is not covered.
ghost use Rattle.std.specs.Prelude.{◌≡◌, List, ℕ, ◌<◌, ◌≤◌, ◌-◌, length, take};
ghost use Rattle.inference.specs.Counts.{at_most};
ghost use Rattle.inference.specs.Interface.{Permission as Needed, Required};
ghost use Rattle.inference.specs.Rows.{Orderly, entry_at, group_count, path_at};
ghost use Rattle.sharing.specs.Sums.{sum_count, Summed};
ghost use Rattle.policy.specs.Syntax.{Tree};
ghost use Rattle.policy.specs.Loads.{AllHeld};
ghost use Rattle.fit.specs.Satisfies.{Verdict, covering};
ghost use Rattle.fit.specs.Givers.{given_rows, joined_at, givers_in};
ghost use Rattle.fit.specs.Covers.{
  flag_verdicts,
  flag_at,
  flags_then,
  flags_at,
  is_lacking,
  sum_verdict,
  sum_verdicts,
  places_from,
  lacking_in,
  told_in,
  verdicts_for,
  verdicts_of,
  CoveringIs,
};

use crate::grants::{givers, tree_of};
use crate::{Case, Covering, Flag, Flags, Grant, Permission, Sum, Sums};
use inference::table::{ACCESSES, Entry, READS, Row, WRITES};
use policy::Span;

impl Grant<'_> {
    // What is granted of a flag of which an entry needs so many.
    #[tactic(auto, using(crate::proofs::CoverSteps::cover_steps))]
    fn flag(&self, needed: usize, value: usize) -> Flag
        requires { 0 < value }
        ensures { (c : List ℕ) (p : Needed) → flag_verdicts p result
            ≡ flag_at p value c self.now.policy.nodes.now (given_rows self.now.givers) needed }
    {
        if needed == 0 {
            Flag::Unneeded
        } else if self.has_flag(value) {
            Flag::Granted
        } else {
            Flag::Lacking
        }
    }

    // What is granted of the flags of an entry.
    #[tactic(auto, using(crate::proofs::CoverSteps::cover_steps))]
    fn flags(&self, entry: Entry<'_>) -> Flags
        ensures { (c : List ℕ) (rest : List Verdict) → flags_then result rest
            ≡ flags_at c self.now.policy.nodes.now (given_rows self.now.givers) entry.entry.table.now entry.entry.component entry.entry.kind rest }
    {
        let read = self.flag(entry.count(READS), 1);
        let write = self.flag(entry.count(WRITES), 2);
        let access = self.flag(entry.count(ACCESSES), 4);
        Flags {
            read,
            write,
            access,
        }
    }

    // The sums for the groups that an entry discloses to.
    #[tactic(auto, using(crate::proofs::CoverSteps::cover_steps))]
    fn sums(&self, sums: &[u32], entry: Entry<'_>) -> Sums
        ensures result_value { sum_verdicts result ≡ places_from 0 (group_count entry.entry.table.now entry.entry.component)
            self.now.policy.charter.now self.now.policy.nodes.now (given_rows self.now.givers)
            entry.entry.table.now sums.now entry.entry.component entry.entry.kind }
        ensures few { result.len ≤ 8 }
    {
        let Entry {
            table,
            component,
            ..
        } = entry;
        let row = Row { table, component };
        let count = row.group_count();
        let mut items = [NO_SUM; 8];
        let mut len: usize = 0;
        for place in 0..count {
            if entry.count(place) != 0 {
                let group = row.group_at(place);
                let needed = sharing::needed(sums, entry, place);
                let granted = self.count(group);
                items[len] = Sum {
                    group,
                    needed,
                    granted,
                };
                len += 1;
            }
        }
        Sums { items, len }
    }
}

const NO_SUM: Sum = Sum {
    group: 0,
    needed: 0,
    granted: 0,
};

// No verdict at all.
const NOTHING: Covering = Covering {
    reached: false,
    flags: Flags {
        read: Flag::Unneeded,
        write: Flag::Unneeded,
        access: Flag::Unneeded,
    },
    sums: Sums {
        items: [NO_SUM; 8],
        len: 0,
    },
};

impl<'a> Case<'a> {
    /// What an entry comes to in a tree: its path reaches nodes whatever they are for, and of these those for its purpose grant.
    #[tactic(auto, using(crate::proofs::CoverSteps::cover_steps))]
    pub fn cover(&self, tree: Span, entry: Entry<'_>) -> Covering
        requires { tree.to ≤ 64 }
        ensures covering_is { CoveringIs self.now.policy.charter.now self.now.policy.nodes.now
            (givers_in self.now.policy.charter.now self.now.policy.nodes.now
            (path_at entry.entry.table.now entry.entry.component) tree.from (tree.to - tree.from))
            entry.entry.table.now self.now.sums.now entry.entry.component entry.entry.kind result }
        ensures few { result.sums.len ≤ 8 }
    {
        let policy = self.policy;
        // Never so; said for speed: the compiler then tests no index of the table again.
        if policy.nodes.len() != 384 {
            return NOTHING;
        }
        let Entry {
            table,
            component,
            ..
        } = entry;
        let row = Row { table, component };
        let reached = givers(policy.nodes, tree, row.path());
        let granting = reached.granting(policy.nodes, row.purpose());
        let grant = Grant {
            policy,
            givers: granting,
        };
        Covering {
            reached: reached.all_given(),
            flags: grant.flags(entry),
            sums: grant.sums(self.sums, entry),
        }
    }

    /// What an entry comes to in the policy: what the definition of its covering says. Where there is no tree of its kind, no rows give.
    #[tactic(auto, using(crate::proofs::CoverSteps::cover_steps))]
    pub fn covering(&self, entry: Entry<'_>) -> Covering
        ensures covering_value { (policy : List Tree) → AllHeld self.now.policy.charter.now self.now.policy.nodes.now self.now.policy.trees 0 policy
            → Orderly entry.entry.table.now entry.entry.component → (required : Required)
            → Summed entry.entry.table.now self.now.sums.now required entry.entry.component entry.entry.kind
            → verdicts_of result ≡ covering policy required (entry_at entry.entry.table.now entry.entry.component entry.entry.kind) }
        ensures result_value { verdicts_of result ≡ verdicts_for self.now.policy.charter.now self.now.policy.nodes.now self.now.policy.trees
            entry.entry.table.now self.now.sums.now entry.entry.component entry.entry.kind }
        ensures few { result.sums.len ≤ 8 }
    {
        let tree = tree_of(self.policy.trees, entry.kind).unwrap_or(Span { from: 0, to: 0 });
        self.cover(tree, entry)
    }
}

impl Sum {
    // Is the needed sum at most the granted one? One from 4,000,000 on is unlimited.
    #[tactic(auto, using(crate::proofs::CoverSteps::cover_steps))]
    fn is_covered(&self) -> bool
        ensures { result ≡ at_most (sum_count self.now.needed) (sum_count self.now.granted) }
    {
        4_000_000 <= self.granted || self.needed <= self.granted
    }
}

impl Sums {
    /// The sums, by rising group.
    pub fn items(&self) -> &[Sum]
        ensures { result.now ≡ take self.now.len self.now.items }
    {
        &self.items[..self.len.min(8)]
    }

    // The first group of which more is needed than is granted.
    #[tactic(auto, using(crate::proofs::CoverSteps::cover_steps))]
    fn lacking(&self) -> Option<Permission>
        ensures { told_in result ≡ lacking_in (sum_verdicts self.now) }
    {
        let items = self.items();
        for sum in items {
            if !sum.is_covered() {
                return Some(Permission::Disclose(sum.group));
            }
        }
        None
    }
}

impl Covering {
    /// The first permission that is not covered, in the order read, write, access, then groups.
    #[tactic(auto, using(crate::proofs::CoverSteps::cover_steps))]
    pub fn lacking(&self) -> Option<Permission>
        ensures { told_in result ≡ lacking_in (verdicts_of self.now) }
    {
        let Flags {
            read,
            write,
            access,
        } = self.flags;
        if read == Flag::Lacking {
            return Some(Permission::Read);
        }
        if write == Flag::Lacking {
            return Some(Permission::Write);
        }
        if access == Flag::Lacking {
            return Some(Permission::Access);
        }
        self.sums.lacking()
    }
}
