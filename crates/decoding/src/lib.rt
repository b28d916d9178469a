// A sheet's forms decoded once, into a table that a run reads: at each place where a form stands, the form with its fields and
// the places of its parts, as one number.
#![tactic(auto)]

pub mod noting;
pub mod words;

use reading::Form;

/// What stands at a place: a form with its fields, the place of its part, and that of its second part where it has two.
#[derive(Clone, Copy, PartialEq, Eq, Debug)]
pub struct Item {
    pub form: Form,
    pub next: usize,
    pub second: usize,
}
