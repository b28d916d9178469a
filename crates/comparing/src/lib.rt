// The service `no_looser` (document 02, Q-8): is a charter no looser than another?
#![tactic(auto)]

ghost use Rattle.std.specs.Prelude.{◌≡◌, List, length};
ghost use Rattle.policy.specs.Syntax.{Tree};
ghost use Rattle.policy.specs.Loads.{Bounded, AllHeld};
ghost use Rattle.containment.specs.Answers.{Answers};
ghost use Rattle.comparing.specs.Rows.{trees_within};
ghost use Rattle.comparing.specs.NoLooser.{no_looser};
ghost use Rattle.comparing.specs.Told.{LoadedAs};

pub mod counts;
pub mod rows;

use crate::rows::{Comparison, Side};
use containment::answers;
use policy::Trees;
use policy::read::read_policy;
use wellformed::questions::policy_fault;

// Reads a charter into the table of nodes, and asks 11 to 15: its trees, where it has at most 4,096 bytes and passes.
#[tactic(auto, using(crate::proofs::LoadSteps::load_steps))]
fn load(charter: &[u8], nodes: &mut [u16]) -> Option<Trees>
    requires { length nodes.old ≡ 384 }
    ensures { LoadedAs charter.now nodes.new result }
{
    if 4096 < charter.len() {
        return None;
    }
    let Ok(policy) = read_policy(charter, nodes) else {
        return None;
    };
    if policy_fault(charter, nodes, policy.trees).is_some() {
        return None;
    }
    Some(policy.trees)
}

// The trees of two charters that pass, in the tables of their nodes.
#[tactic(auto, using(crate::proofs::CompareSteps::compare_steps))]
fn compared<'a>(
    answers: &'a [u8],
    a: &'a [u8],
    nodes: &'a [u16],
    trees: Trees,
    b: &'a [u8],
    others: &'a [u16],
    choice: Trees,
) -> bool
    requires { Answers answers.now × Bounded trees × Bounded choice }
    ensures { (p q : List Tree) → AllHeld a.now nodes.now trees 0 p → AllHeld b.now others.now choice 0 q → result ≡ trees_within p q }
{
    let first = Side {
        charter: a,
        nodes,
        trees,
    };
    let second = Side {
        charter: b,
        nodes: others,
        trees: choice,
    };
    let comparison = Comparison {
        answers,
        first,
        second,
    };
    comparison.trees_within()
}

/// Is charter `a` no looser than charter `b`? The answer is that of the definition `no_looser`, for any bytes in both slices.
#[tactic(auto, using(crate::proofs::CompareSteps::compare_steps))]
pub fn no_looser(a: &[u8], b: &[u8]) -> bool
    ensures { result ≡ no_looser a.now b.now }
{
    let mut nodes = [0u16; 384];
    let Some(trees) = load(a, &mut nodes) else {
        return false;
    };
    let mut others = [0u16; 384];
    let Some(choice) = load(b, &mut others) else {
        return false;
    };
    let answers = answers();
    compared(&answers, a, &nodes, trees, b, &others, choice)
}
