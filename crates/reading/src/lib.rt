// The reader of encoded systems (document 01: flow sheets). It answers questions 1 to 6 for any bytes, in one pass.
// Here stand the answers that its functions give; each module below reads one part of the format.
#![tactic(auto)]

ghost use Rattle.std.specs.Prelude.{◌≡◌};
ghost use Rattle.reading.specs.Questions.{number_of};

use std::fmt;

pub mod bytes;
pub mod dialects;
pub mod forms;
pub mod paths;
pub mod system;
pub mod types;

/// What is asked of a sheet, a charter and what is lent with them, each question by its number. The first that fails is the answer.
#[derive(Clone, Copy, Debug, PartialEq, Eq)]
pub enum Question {
    /// Are sheet and charter at most 4,096 bytes each?
    Length = 1,
    /// Is there a byte where one is due?
    Byte = 2,
    /// Is no byte left over?
    NoneLeft = 3,
    /// Is each code, group, purpose, kind and count in its range?
    Range = 4,
    /// Are nesting, names, path and components within their limits?
    Limits = 5,
    /// Is each group new to its path?
    NewGroup = 6,
    /// Is each used name in scope?
    Scope = 7,
    /// Is each used channel a channel?
    Channel = 8,
    /// Is the carried type equal to the type of the name sent or bound?
    Carried = 9,
    /// Is the channel's outermost group in the component's path?
    Located = 10,
    /// Does the charter read, in its ranges, to its end?
    Charter = 11,
    /// Are the kinds of the trees distinct?
    Kinds = 12,
    /// Does no node's group stand at a node above it?
    Above = 13,
    /// Does each node have the map, list and purposes of the earlier nodes of its tree with its group?
    Alike = 14,
    /// Where a node has nondisclose, do the nodes below it disclose only to groups at it or below it?
    Fence = 15,
    /// Is there a tree for each entry's kind?
    Tree = 16,
    /// Does each group of each entry's path stand at a reached node?
    Reached = 17,
    /// Is each entry covered by its grant?
    Covered = 18,
    /// Is the output long enough for what is written there?
    Output = 19,
    /// Has the start at most 64 threads and 1,024 names?
    Start = 20,
    /// Has the script at most 1,024 whole moves, with codes, type counts, groups and kinds in range?
    Script = 21,
    /// Has the log at least 8 bytes a move?
    Log = 22,
    /// Does the names file keep its rules?
    Names = 40,
    /// Is each purpose 0?
    Purposes = 41,
}

impl Question {
    /// The question's number.
    pub fn number(self) -> usize
        ensures { result ≡ number_of self }
    {
        self as usize
    }

    /// The question's refusal: it fails at the byte at this place.
    pub fn at(self, at: usize) -> Refusal
        ensures { result ≡ record { question = self; at = at } }
    {
        Refusal { question: self, at }
    }
}

impl From<Question> for u64 {
    fn from(question: Question) -> u64
        ensures { result ≡ number_of question }
    {
        question as u64
    }
}

impl fmt::Display for Question {
    fn fmt<W: fmt::Write>(&self, f: &mut fmt::Formatter<W>) -> fmt::Result {
        write!(f, "{}", self.number())
    }
}

/// Why a reading stops: the question that fails, and the place of the byte at which it fails.
#[derive(Clone, Copy, Debug, PartialEq, Eq)]
pub struct Refusal {
    pub question: Question,
    pub at: usize,
}

/// The dialects of the format; `dialects` tells what they differ in.
#[derive(Clone, Copy, Debug, PartialEq, Eq)]
pub enum Dialect {
    Old,
    Current,
}

/// The bytes of an encoded system, and the dialect in which they are read.
#[derive(Clone, Copy)]
pub struct Source<'a> {
    pub dialect: Dialect,
    pub bytes: &'a [u8],
}

/// Where a walk over a system stands: the place, the permitted nesting that is left, and the number of names in scope.
#[derive(Clone, Copy, Debug, PartialEq, Eq)]
pub struct Spot {
    pub at: usize,
    pub nest: usize,
    pub names: usize,
}

/// A number that was read, and the place after it.
#[derive(Clone, Copy, Debug, PartialEq, Eq)]
pub struct Number {
    pub value: usize,
    pub next: usize,
}

/// A type is a number, and has one of two shapes: plain data of a base type (document 01: kind), or a channel of a group
/// that carries a type.
#[derive(Clone, Copy, Debug, PartialEq, Eq)]
pub enum Shape {
    Plain(usize),
    Channel { group: usize, carried: usize },
}

/// The fields of an act. An input's object is the type of the name that it binds, an output's is the name that it sends.
#[derive(Clone, Copy, Debug, PartialEq, Eq)]
pub struct Act {
    pub channel: usize,
    pub object: usize,
}

/// The own fields of a component (document 01: a post): those that stand between its code and its process.
#[derive(Clone, Copy, Debug, PartialEq, Eq)]
pub struct OwnFields {
    pub group: usize,
    pub purpose: usize,
}

/// The forms of systems and processes, with their fields.
#[derive(Clone, Copy, Debug, PartialEq, Eq)]
pub enum Form {
    Nil,
    Par,
    Group(usize),
    New(usize),
    Component(OwnFields),
    Input(Act),
    Output(Act),
    Replicate,
}

/// What stands at a place: a form with its fields, and the place after it.
#[derive(Clone, Copy, Debug, PartialEq, Eq)]
pub struct Place {
    pub form: Form,
    pub next: usize,
}

/// A group path: the groups passed on the way in, the innermost last. Those past `len` count for nothing; `groups` gives those that do.
#[derive(Clone, Copy, Debug, PartialEq, Eq)]
pub struct Path {
    pub groups: [u16; 8],
    pub len: usize,
}
