// The services over encoded systems and policies.
#![tactic(auto)]

ghost use Rattle.std.specs.Prelude.{◌<◌, ◌≤◌};
ghost use Rattle.policy.specs.Loads.{Bounded};
ghost use Rattle.service.specs.Fault.{fault_number};

pub mod checking;
pub mod judging;

use policy::Trees;
use reading::Question;

/// What questions 1 to 18 come to: the first that fails; the number of components in the sheet's table; and the charter's trees, where
/// they were read into the table of nodes.
#[derive(Clone, Copy)]
pub struct Judged {
    pub fault: Option<Question>,
    pub components: usize,
    pub trees: Trees,
    pub ghost few: { components ≤ 32 },
    pub ghost bounded: { 11 < fault_number fault → Bounded trees },
}
