// Two policies compared row by row: permissions, nodes, trees.
ghost use Rattle.std.specs.Prelude.{◌≡◌, List, ℕ, ◌<◌, ◌≤◌, ◌-◌};
ghost use Rattle.policy.specs.Syntax.{Tree};
ghost use Rattle.policy.specs.Rows.{node_at, permissions_of, flat_of, flats};
ghost use Rattle.policy.specs.Loads.{Bounded, AllHeld};
ghost use Rattle.containment.specs.Answers.{Answers};
ghost use Rattle.comparing.specs.NoLooser.{maps_no_looser};
ghost use Rattle.comparing.specs.Rows.{row_within, rows_within, trees_within};

use crate::counts::lists_within;
use containment::{among, digits_among};
use fit::grants::tree_of;
use policy::nodes::{node_at, span_of};
use policy::{Permissions, Span, Trees};

/// A policy that is compared, as its parts are lent: the bytes of its charter, the table of its nodes and its trees. The table may have
/// any length (a cell past its end is 0), so this is no `Policy`.
#[derive(Clone, Copy)]
pub struct Side<'a> {
    pub charter: &'a [u8],
    pub nodes: &'a [u16],
    pub trees: Trees,
    pub ghost bounded: { Bounded trees },
}

/// Two policies that are compared, the first of which is to take the place of the second, and the table of four-bit maps.
#[derive(Clone, Copy)]
pub struct Comparison<'a> {
    pub answers: &'a [u8],
    pub first: Side<'a>,
    pub second: Side<'a>,
    pub ghost right: { Answers answers.now },
}

impl<'a> Comparison<'a> {
    // Are the flags and purposes of permissions of the first among those of the second, and the second's nondisclose among the first's?
    #[tactic(auto, using(crate::proofs::RowSteps::map_steps))]
    fn maps_within(&self, p: Permissions, q: Permissions) -> bool
        ensures { (a b : List ℕ) → result ≡ maps_no_looser (permissions_of a p) (permissions_of b q) }
    {
        let answers = self.answers;
        among(answers, p.map % 8, q.map % 8)
            && digits_among(answers, 4, p.purposes, q.purposes)
            && among(answers, q.map / 8 % 2, p.map / 8 % 2)
    }

    // A row of the first and one of the second: the same depth, the same group, permissions that are no looser.
    #[tactic(auto, using(crate::proofs::RowSteps::row_steps))]
    fn row_within(&self, row: usize, other: usize) -> bool
        requires { (row < 64) × (other < 64) }
        ensures { result ≡ row_within (flat_of self.now.first.charter.now (node_at self.now.first.nodes.now row))
            (flat_of self.now.second.charter.now (node_at self.now.second.nodes.now other)) }
    {
        let n = node_at(self.first.nodes, row);
        let m = node_at(self.second.nodes, other);
        n.depth == m.depth
            && n.group == m.group
            && self.maps_within(n.permissions, m.permissions)
            && lists_within(
                self.first.charter,
                n.permissions,
                self.second.charter,
                m.permissions,
            )
    }

    // Two trees, node after node.
    #[tactic(auto, using(crate::proofs::RowSteps::rows_steps))]
    fn rows_within(&self, tree: Span, other: Span) -> bool
        requires { (tree.to ≤ 64) × (other.to ≤ 64) }
        ensures { result ≡ rows_within
            (flats self.now.first.charter.now self.now.first.nodes.now tree.from (tree.to - tree.from))
            (flats self.now.second.charter.now self.now.second.nodes.now other.from (other.to - other.from)) }
    {
        let rows = tree.to.saturating_sub(tree.from);
        if rows != other.to.saturating_sub(other.from) {
            return false;
        }
        for i in 0..rows {
            if !self.row_within(tree.from + i, other.from + i) {
                return false;
            }
        }
        true
    }

    /// Each tree of the first beside the second's for its kind.
    #[tactic(auto, using(crate::proofs::TreeSteps::tree_steps))]
    pub fn trees_within(&self) -> bool
        ensures { (p q : List Tree) → AllHeld self.now.first.charter.now self.now.first.nodes.now self.now.first.trees 0 p
            → AllHeld self.now.second.charter.now self.now.second.nodes.now self.now.second.trees 0 q
            → result ≡ trees_within p q }
    {
        for t in 0..self.first.trees.len {
            let kind = self.first.trees.kinds[t] as usize;
            let Some(other) = tree_of(self.second.trees, kind) else {
                return false;
            };
            if !self.rows_within(span_of(self.first.trees, t), other) {
                return false;
            }
        }
        true
    }
}
