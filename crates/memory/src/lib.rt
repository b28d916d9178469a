// What a run keeps in lent memory: threads as numbers in a list, the run names of the binders passed as chains of cells, and
// which names are known to the environment.
#![tactic(auto)]

pub mod chains;
pub mod names;
pub mod threads;

ghost use Rattle.std.specs.Prelude.{◌≡◌, set};

/// A thread: its component, the cell of its innermost run name, the number of names in scope, the permitted nesting that is
/// left, and the place of its remaining process.
#[derive(Clone, Copy, PartialEq, Eq, Debug)]
pub struct Thread {
    pub component: usize,
    pub env: usize,
    pub names: usize,
    pub nest: usize,
    pub at: usize,
}

/// Stores a value in a table, where there is such a place; past the table's end nothing is written.
pub fn put<T: Copy>(table: &mut [T], at: usize, value: T)
    ensures { table.new ≡ set table.old at value }
{
    if at < table.len() {
        table[at] = value;
    }
}
