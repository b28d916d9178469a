// The stored form of a sheet, copied from one dialect into another: a walk over its bytes, form by form.
#![tactic(auto)]

pub mod copying;
pub mod walking;
