// Questions 13 and 14 over the rows of a tree, in one pass.
ghost use Rattle.std.specs.Prelude.{◌≡◌, [], ◌&&◌, ◌<◌, ◌≤◌, ◌+◌, ◌-◌, get_or, replicate, eqb};
ghost use Rattle.policy.specs.WellFormed.{same_list, same_permissions, fault_of};
ghost use Rattle.policy.specs.Rows.{word_in, items_at, permissions_of, flats};
ghost use Rattle.reading.specs.Told.{numbered};
ghost use Rattle.wellformed.specs.Faults.{failed};
ghost use Rattle.wellformed.specs.Rows.{heads_fault, same_as_last};

use policy::nodes::{node_at, word_in};
use policy::{Node, Permissions, Span};
use reading::Question;
use reading::bytes::byte_in;

// The same item at two places?
#[tactic(auto, using(crate::proofs::AgreeSteps::agree_steps))]
fn same_item(c: &[u8], a: usize, b: usize) -> bool
    requires { (a < 9000) × (b < 9000) }
    ensures { result ≡ (eqb (get_or c.now a 0) (get_or c.now b 0)
        && eqb (word_in c.now (a + 1)) (word_in c.now (b + 1))) }
{
    byte_in(c, a) == byte_in(c, b) && word_in(c, a + 1) == word_in(c, b + 1)
}

// The same items in two lists?
#[tactic(auto, using(crate::proofs::AgreeSteps::agree_steps))]
fn same_items(c: &[u8], a: usize, b: usize, count: usize) -> bool
    requires { (a < 8192) × (b < 8192) × (count < 128) }
    ensures { result ≡ same_list (items_at count c.now a) (items_at count c.now b) }
{
    for i in 0..count {
        if !same_item(c, a + 3 * i, b + 3 * i) {
            return false;
        }
    }
    true
}

// The same map, list and purposes?
#[tactic(auto, using(crate::proofs::AgreeSteps::agree_steps))]
fn same_permissions(c: &[u8], p: Permissions, q: Permissions) -> bool
    requires { (p.list < 8192) × (q.list < 8192) × (p.count < 128) }
    ensures { result ≡ same_permissions (permissions_of c.now p) (permissions_of c.now q) }
{
    p.map == q.map
        && p.purposes == q.purposes
        && p.count == q.count
        && same_items(c, p.list, q.list, p.count)
}

// 14 at one node: the same map, list and purposes as at the last node of its group before it, whose row is the one before
// `next`? Where `next` is 0 there is no such node.
#[tactic(auto, using(crate::proofs::HeadSteps::head_steps))]
fn same_as_last(c: &[u8], nodes: &[u16], next: usize, node: Node) -> bool
    requires { (next ≤ 64) × (node.permissions.list < 8192) }
    ensures { result ≡ same_as_last c.now nodes.now next (permissions_of c.now node.permissions) }
{
    next == 0 || same_permissions(c, node_at(nodes, next - 1).permissions, node.permissions)
}

// The question that a node fails, if any: where it fails both, 14. `same` and `fresh` are what 14 and 13 say of it.
#[tactic(auto, using(crate::proofs::HeadSteps::head_steps))]
fn node_fault(same: bool, fresh: bool) -> Option<Question>
    ensures { numbered result ≡ failed (fault_of same fresh) }
{
    if !same {
        return Some(Question::Alike);
    }
    if fresh { None } else { Some(Question::Above) }
}

/// 13 and 14 in one tree, node after node: the question that the first node with a fault fails, if any does.
#[tactic(auto, using(crate::proofs::HeadSteps::head_steps))]
pub fn heads_fault(c: &[u8], nodes: &[u16], tree: Span) -> Option<Question>
    requires { tree.to ≤ 64 }
    ensures { numbered result ≡ failed (heads_fault (replicate 8 0) [] (flats c.now nodes.now tree.from (tree.to - tree.from))) }
{
    // by group, the row after its last node
    let mut last = [0usize; 64];
    // by depth, the groups on the way down
    let mut path = [0usize; 8];
    for row in tree.from..tree.to {
        let node = node_at(nodes, row);
        let same = same_as_last(c, nodes, last[node.group], node);
        let above = path[..node.depth].contains(&node.group);
        let fault = node_fault(same, !above);
        if fault.is_some() {
            return fault;
        }
        last[node.group] = row + 1;
        path[node.depth] = node.group;
    }
    None
}
