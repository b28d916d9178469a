// Typing and inference over encoded systems: questions 7 to 10, what each act needs, and the permission interface.
// One walk over the sheet finds the first question that fails and fills a table: for each component a row of its path and
// purpose and of the counts of what it needs.
#![tactic(auto)]

ghost use Rattle.std.specs.Prelude.{◌<◌};

pub mod acts;
pub mod rows;
pub mod sheet;
pub mod systems;
pub mod table;
pub mod walks;

use reading::{Path, Question};

/// What was found of a sheet: the first of questions 7 to 10 that fails, and the number of components.
#[derive(Clone, Copy, Debug, PartialEq, Eq)]
pub struct Inference {
    pub fault: Option<Question>,
    pub components: usize,
}

/// Whose process a walk goes over: the component's number and path, and whether it stands under a repeat.
#[derive(Clone, Copy)]
pub struct Context {
    pub component: usize,
    pub path: Path,
    pub repeated: bool,
    pub ghost in_table: { component < 32 },
}

/// A walk over a sheet that passes questions 1 to 6: the sheet, the table that it fills, the types of the names in scope, by level (those
/// past the number of names count for nothing), the number of components so far, and the first question that fails.
#[derive(Drop)]
pub struct Walker<'a> {
    pub sheet: &'a [u8],
    pub table: &'a mut [u16],
    pub scope: [usize; 64],
    pub components: usize,
    pub fault: Option<Question>,
}
