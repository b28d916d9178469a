// What the dialects of the format differ in.
ghost use Rattle.std.specs.Prelude.{◌≡◌};
ghost use Rattle.reading.specs.Dialects.{groups_in, kinds_in, purposes_in};

use crate::Dialect;

impl Dialect {
    /// A group is below this.
    #[tactic(auto, unfolding(crate::specs::Dialects::groups_in))]
    pub fn groups(self) -> usize
        ensures { result ≡ groups_in self }
    {
        match self {
            Dialect::Old => 64,
            Dialect::Current => 64,
        }
    }

    /// A kind is below this.
    #[tactic(auto, unfolding(crate::specs::Dialects::kinds_in))]
    pub fn kinds(self) -> usize
        ensures { result ≡ kinds_in self }
    {
        match self {
            Dialect::Old => 16,
            Dialect::Current => 16,
        }
    }

    /// A purpose is below this; 0 where components state none.
    #[tactic(auto, unfolding(crate::specs::Dialects::purposes_in))]
    pub fn purposes(self) -> usize
        ensures { result ≡ purposes_in self }
    {
        match self {
            Dialect::Old => 0,
            Dialect::Current => 16,
        }
    }
}
