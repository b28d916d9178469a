// The bytes around a run: reading a script of moves (question 21 of document 01), and writing a record into the lent log.
// Here stand the values that these functions take and give.
#![tactic(auto)]

pub mod moves;
pub mod records;

/// A name that a thread is to receive from the environment.
#[derive(Clone, Copy, PartialEq, Eq, Debug)]
pub struct Receipt {
    pub thread: usize,
    pub name: usize,
}

/// Two threads that are to communicate (document 01: to meet).
#[derive(Clone, Copy, PartialEq, Eq, Debug)]
pub struct Communication {
    pub sender: usize,
    pub receiver: usize,
}

/// The moves: the unfolding of a replication, a send to the environment, a receive from the environment, a communication, and a name
/// of a type made by the environment.
#[derive(Clone, Copy, PartialEq, Eq, Debug)]
pub enum Move {
    Unfold(usize),
    SendOut(usize),
    ReceiveIn(Receipt),
    Communicate(Communication),
    EnvironmentName(usize),
}

/// What stands at a place of a script: a move with its fields, and the place after it.
#[derive(Clone, Copy, PartialEq, Eq, Debug)]
pub struct MovePlace {
    pub step: Move,
    pub next: usize,
}

/// A record of the log. A refused move has its number and zeros in all other fields.
#[derive(Clone, Copy, PartialEq, Eq, Debug)]
pub struct Record {
    pub number: usize,
    pub label: usize,
    pub channel: usize,
    pub name: usize,
    pub actor: usize,
    pub receiver: usize,
}
