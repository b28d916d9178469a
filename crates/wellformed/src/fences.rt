// Question 15 over the rows of a tree: what stands below a node with nondisclose.
ghost use Rattle.std.specs.Prelude.{◌≡◌, List, ℕ, ◌<◌, ◌≤◌, ◌+◌, ◌-◌};
ghost use Rattle.reading.specs.Forms.{member};
ghost use Rattle.policy.specs.WellFormed.{disclosed_to};
ghost use Rattle.policy.specs.Rows.{node_at, items_at, flat_of, flats};
ghost use Rattle.wellformed.specs.Rows.{heads_in, below_in, kept_in, all_kept, fence_of, is_marked, all_marked, listed_groups};

use policy::nodes::{has_bit, node_at};
use policy::{Permissions, Span};
use reading::bytes::byte_in;

// The groups of a node and of the nodes below it, marked.
#[tactic(auto, using(crate::proofs::FenceSteps::fence_steps, crate::proofs::FenceSteps::marks_next))]
fn marked(nodes: &[u16], row: usize, to: usize) -> [bool; 64]
    requires { (row < to) × (to ≤ 64) }
    ensures { (c : List ℕ) (h : ℕ) → h < 64 → is_marked result h ≡ member h (fence_of (flats c nodes.now row (to - row))) }
{
    let mut marks = [false; 64];
    let node = node_at(nodes, row);
    marks[node.group] = true;
    for i in row + 1..to {
        let below = node_at(nodes, i);
        if below.depth <= node.depth {
            return marks;
        }
        marks[below.group] = true;
    }
    marks
}

// Is each group of a list marked?
#[tactic(auto, using(crate::proofs::FenceSteps::fence_steps, crate::proofs::FenceSteps::list_next))]
fn list_marked(c: &[u8], p: Permissions, marks: &[bool; 64]) -> bool
    requires { (p.list < 8192) × (p.count < 128) }
    ensures { result ≡ all_marked marks.now (listed_groups (items_at p.count c.now p.list)) }
{
    for i in 0..p.count {
        let group = byte_in(c, p.list + 3 * i);
        if 64 <= group || !marks[group] {
            return false;
        }
    }
    true
}

// Is every group disclosed to by the nodes below a row marked?
#[tactic(auto, using(crate::proofs::FenceSteps::fence_steps, crate::proofs::FenceSteps::kept_next))]
fn kept_below(c: &[u8], nodes: &[u16], row: usize, to: usize, marks: &[bool; 64]) -> bool
    requires { (row < to) × (to ≤ 64) }
    ensures { result ≡ all_marked marks.now
        (disclosed_to (heads_in (below_in (node_at nodes.now row).depth
        (flats c.now nodes.now (row + 1) (to - (row + 1)))))) }
{
    let depth = node_at(nodes, row).depth;
    for i in row + 1..to {
        let below = node_at(nodes, i);
        if below.depth <= depth {
            return true;
        }
        if !list_marked(c, below.permissions, marks) {
            return false;
        }
    }
    true
}

// Where a row's node has nondisclose: is every group disclosed to below it a group of it or of a node below it?
#[tactic(auto, using(crate::proofs::FenceSteps::fence_steps))]
fn keeps_within(c: &[u8], nodes: &[u16], row: usize, to: usize) -> bool
    requires { (row < to) × (to ≤ 64) }
    ensures { result ≡ kept_in (flat_of c.now (node_at nodes.now row))
        (below_in (node_at nodes.now row).depth (flats c.now nodes.now (row + 1) (to - (row + 1)))) }
{
    !has_bit(node_at(nodes, row).permissions.map, 8)
        || kept_below(c, nodes, row, to, &marked(nodes, row, to))
}

/// Question 15 in one tree.
#[tactic(auto, using(crate::proofs::FenceSteps::fence_steps))]
pub fn fenced(c: &[u8], nodes: &[u16], tree: Span) -> bool
    requires { tree.to ≤ 64 }
    ensures { result ≡ all_kept (flats c.now nodes.now tree.from (tree.to - tree.from)) }
{
    for row in tree.from..tree.to {
        if !keeps_within(c, nodes, row, tree.to) {
            return false;
        }
    }
    true
}
