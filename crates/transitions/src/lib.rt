// The moves of a run on a state in lent memory (document 01, "Running").
//
// Five tables are lent: `threads`, the threads in order; `made`, room for what a move makes; `types`, the type of each name
// given so far; `known`, which names are known to the environment; and `cells`, the run names of the binders passed.
// They come in one by one, as in `continuations`.
#![tactic(auto)]

pub mod communication;
pub mod environment;
pub mod moves;
pub mod outcomes;
pub mod receiving;
pub mod sending;
pub mod unfoldings;

use products::Sizes;
use script::Record;

/// Why a move is refused: the question that it fails (document 01, 30 to 35), the first that does.
#[derive(Clone, Copy, PartialEq, Eq, Debug)]
pub enum MoveRefusal {
    /// No thread has the index.
    NoThread = 30,
    /// The thread does not begin with what the move acts on.
    OtherPrefix = 31,
    /// The environment does not know the channel or the name.
    NotKnown = 32,
    /// The name has another type than the receive binds.
    OtherType = 33,
    /// The sender and the receiver are on two channels.
    OtherChannel = 34,
    /// There is no room for the threads or the names afterwards.
    NoRoom = 35,
}

/// What a move did: the sizes after it, and its record in the log.
#[derive(Clone, Copy)]
pub struct Moved {
    pub sizes: Sizes,
    pub line: Record,
}
