// What follows an act of a run: a thread's prefix, its continuation, and what that makes, put in the thread's place.
//
// Four tables are lent: `threads`, the threads in order; `made`, room for what a move makes; `types`, the type of each name
// given so far; and `cells`, the run names of the binders passed.
// They come in one by one: a struct of arrays would shut out who has slices, or cells whose number is known only when it runs.
#![tactic(auto)]

pub mod exchanging;
pub mod placing;
pub mod prefixes;
pub mod widening;

use memory::Thread;
use products::Sizes;

/// A send or receive in front of a thread: the run name of its channel, what it sends or the type that it binds, and the place of
/// its continuation.
#[derive(Clone, Copy, PartialEq, Eq, Debug)]
pub struct Action {
    pub channel: usize,
    pub object: usize,
    pub next: usize,
}

/// The prefix of a thread that a move can act on (document 01: the form it stands at); a repeat has the place of what it repeats.
#[derive(Clone, Copy, PartialEq, Eq, Debug)]
pub enum Prefix {
    Repeats(usize),
    Receives(Action),
    Sends(Action),
}

/// Two threads that communicate: their indices, the continuations of both, and the name disclosed. The receiver's continuation does
/// not yet have that name in scope.
#[derive(Clone, Copy)]
pub struct Exchange {
    pub sender: usize,
    pub receiver: usize,
    pub mine: Thread,
    pub theirs: Thread,
    pub sent: usize,
}

/// What a communication makes: how many threads are the sender's, and the sizes with both continuations' products.
#[derive(Clone, Copy)]
pub struct BothMade {
    pub mine: usize,
    pub sizes: Sizes,
}

/// Threads that were made, for the place of one: its index, the first of them in their table, and how many they are.
#[derive(Clone, Copy, PartialEq, Eq, Debug)]
pub struct Part {
    pub at: usize,
    pub first: usize,
    pub count: usize,
}
