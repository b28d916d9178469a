// Questions 12 to 15 of a whole policy: 12 first, 13 and 14 node after node, 15 last.
ghost use Rattle.std.specs.Prelude.{◌≡◌, List};
ghost use Rattle.reading.specs.Told.{numbered, failed_below};
ghost use Rattle.policy.specs.Syntax.{Tree};
ghost use Rattle.policy.specs.WellFormed.{nodes_fault, fenced};
ghost use Rattle.policy.specs.Loads.{Bounded, AllHeld};
ghost use Rattle.wellformed.specs.Faults.{failed, policy_fault};

use crate::fences::fenced;
use crate::heads::heads_fault;
use crate::kinds::kinds_distinct;
use policy::Trees;
use policy::nodes::span_of;
use reading::Question;

// 13 and 14 in all trees: the question that the first node with a fault fails, if any does.
#[tactic(auto, using(crate::proofs::PassSteps::node_pass_steps))]
fn nodes_fault(c: &[u8], nodes: &[u16], trees: Trees) -> Option<Question>
    requires { Bounded trees }
    ensures { (policy : List Tree) → AllHeld c.now nodes.now trees 0 policy
        → numbered result ≡ failed (nodes_fault policy) }
{
    for t in 0..trees.len {
        let fault = heads_fault(c, nodes, span_of(trees, t));
        if fault.is_some() {
            return fault;
        }
    }
    None
}

// 15 in all trees.
#[tactic(auto, using(crate::proofs::PassSteps::fence_pass_steps))]
fn all_fenced(c: &[u8], nodes: &[u16], trees: Trees) -> bool
    requires { Bounded trees }
    ensures { (policy : List Tree) → AllHeld c.now nodes.now trees 0 policy → result ≡ fenced policy }
{
    for t in 0..trees.len {
        if !fenced(c, nodes, span_of(trees, t)) {
            return false;
        }
    }
    true
}

/// The first of questions 12 to 15 that a policy fails, if any. The table may have any length, so the three are no `Policy`.
#[tactic(auto, using(crate::proofs::PassSteps::fault_steps))]
pub fn policy_fault(c: &[u8], nodes: &[u16], trees: Trees) -> Option<Question>
    requires { Bounded trees }
    ensures { (policy : List Tree) → AllHeld c.now nodes.now trees 0 policy
        → numbered result ≡ failed_below 16 (policy_fault policy) }
{
    if !kinds_distinct(trees) {
        return Some(Question::Kinds);
    }
    let fault = nodes_fault(c, nodes, trees);
    if fault.is_some() {
        return fault;
    }
    if all_fenced(c, nodes, trees) {
        None
    } else {
        Some(Question::Fence)
    }
}
