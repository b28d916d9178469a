// What a move tells: a refusal, the record of a move, and what is known after a move that is taken.
ghost use Rattle.std.specs.Prelude.{◌≡◌};
ghost use Rattle.transitions.specs.Steps.{number_of, refusal, sizes_after, line_of, known_after};

use crate::{MoveRefusal, Moved};
use memory::put;
use products::Sizes;
use script::Record;

impl MoveRefusal {
    /// The number of the question that a move fails.
    pub fn number(self) -> usize
        ensures { result ≡ number_of self }
    {
        self as usize
    }
}

/// A refused move: its number, and the sizes as they are.
#[tactic(auto, unfolding(crate::specs::Steps::refusal))]
pub fn refused(number: usize, sizes: Sizes) -> Moved
    ensures { result ≡ refusal number sizes }
{
    Moved {
        sizes,
        line: Record {
            number,
            label: 0,
            channel: 0,
            name: 0,
            actor: 0,
            receiver: 0,
        },
    }
}

/// The sizes and the record that a move leaves; a refused move leaves the sizes as they were.
#[tactic(auto, using(crate::proofs::OutcomeSteps::outcome_steps))]
pub fn logged(outcome: Result<Moved, MoveRefusal>, sizes: Sizes) -> Moved
    ensures { result ≡ record { sizes = sizes_after sizes outcome; line = line_of outcome } }
{
    match outcome {
        Ok(moved) => moved,
        Err(refusal) => refused(refusal.number(), sizes),
    }
}

// A name sent to the environment becomes known, where it is one of those given.
#[tactic(auto, using(crate::proofs::OutcomeSteps::outcome_steps))]
pub fn know_sent(known: &mut [bool], sizes: Sizes, name: usize)
    ensures { known.new ≡ known_after sizes name known.old }
{
    if name < sizes.names {
        put(known, name, true);
    }
}
