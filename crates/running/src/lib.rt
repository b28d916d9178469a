// Running accepted systems: states, moves and their records. Here stand the definitions and the theorem on them; the code follows.
#![tactic(auto)]

ghost use Rattle.running.specs.Theorem.{AlwaysGuaranteed, AlwaysWithinEach};

/// What holds of each state of each run of an accepted sheet, whatever its moves. It does nothing when it runs.
pub fn guaranteed()
    ensures { AlwaysGuaranteed }
{}

/// So no component by itself ever has disclosed and still infers more than its finite count. It does nothing when it runs.
pub fn within_each()
    ensures { AlwaysWithinEach }
{}
