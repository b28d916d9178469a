// Trimming policies: how far a count may be lowered. Here stand the definitions and what they promise.
#![tactic(auto)]

ghost use Rattle.trimming.specs.Trim.{AlwaysAccepted};

/// A count lowered by at most the smallest slack told for it leaves the sheet accepted. It does nothing when it runs.
pub fn trimmed_accepted()
    ensures { AlwaysAccepted }
{}
