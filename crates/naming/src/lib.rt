// The names of groups and kinds: the reader of a names file, question 40, and the sentence for an uncovered
// permission.
#![tactic(auto)]

pub mod letters;
pub mod names;
pub mod sentence;
