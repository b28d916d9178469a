// Questions 12 to 15 of a policy (document 01: charter) whose nodes stand in the table.
#![tactic(auto)]

pub mod fences;
pub mod heads;
pub mod kinds;
pub mod questions;
