// Question 12: the kinds of a policy's trees.
ghost use Rattle.std.specs.Prelude.{◌≡◌, ◌≤◌, take};
ghost use Rattle.policy.specs.WellFormed.{distinct};

use policy::Trees;

/// Question 12: are the kinds of the trees distinct?
#[tactic(auto, using(crate::proofs::KindSteps::kind_steps))]
pub fn kinds_distinct(trees: Trees) -> bool
    requires { trees.len ≤ 16 }
    ensures { result ≡ distinct (take trees.len trees.kinds) }
{
    let kinds = &trees.kinds[..trees.len];
    for (t, kind) in kinds.iter().enumerate() {
        if kinds[t + 1..].contains(kind) {
            return false;
        }
    }
    true
}
