// One name more: a process under it, and the sizes with its cell.
ghost use Rattle.std.specs.Prelude.{◌≡◌};
ghost use Rattle.continuations.specs.Places.{under_cell, with_cell};

use memory::Thread;
use products::Sizes;

/// A process under one name more, in cell `cell`; the same where no more names can be in scope.
#[tactic(auto, using(crate::proofs::WidenSteps::widen_steps))]
pub fn under_cell(t: Thread, cell: usize) -> Thread
    ensures { result ≡ under_cell t cell }
{
    if 128 <= t.names {
        return t;
    }
    Thread {
        env: cell,
        names: t.names + 1,
        ..t
    }
}

/// The sizes with one cell more; the same where all cells are in use.
#[tactic(auto, using(crate::proofs::WidenSteps::widen_steps))]
pub fn with_cell(sizes: Sizes) -> Sizes
    ensures { result ≡ with_cell sizes }
{
    if 2304 <= sizes.cells {
        return sizes;
    }
    Sizes {
        cells: sizes.cells + 1,
        ..sizes
    }
}
