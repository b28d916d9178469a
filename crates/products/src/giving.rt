// One name given, one thread made.
ghost use Rattle.std.specs.Prelude.{◌≡◌, ◌-◌, ◌<◌};
ghost use Rattle.products.specs.Makers.{GivesIn};
ghost use Rattle.products.specs.Makes.{Pushes};

use crate::{MAX_CELLS, MAX_NAMES, MAX_THREADS, Maker, Sizes};
use memory::chains::bind;
use memory::{Thread, put};

impl<'a> Maker<'a> {
    /// Gives a name of this type the next number; its cell comes after `env`. Where no number or no cell is left, the names count as
    /// too many.
    #[tactic(auto, using(crate::proofs::GivingSteps::giving_steps))]
    pub fn give(&mut self, name_type: usize, env: usize, sizes: Sizes) -> Sizes
        requires { name_type < 4294967296 }
        ensures { GivesIn self.old sizes name_type env self.new result }
    {
        let name = sizes.names;
        let cell = sizes.cells;
        if MAX_NAMES <= name || MAX_CELLS <= cell {
            return Sizes {
                names: MAX_NAMES + 1,
                ..sizes
            };
        }
        put(self.types, name, name_type as u32);
        bind(self.cells, cell, env, name);
        Sizes {
            names: name + 1,
            cells: cell + 1,
            ..sizes
        }
    }
}

/// A thread stands after those made so far; where there is no room for it, the threads count as too many.
#[tactic(auto, using(crate::proofs::GivingSteps::giving_steps))]
pub fn push(thread: Thread, sizes: Sizes, made: &mut [usize]) -> Sizes
    ensures { Pushes sizes thread made.old made.new result }
{
    let n = sizes.threads;
    if MAX_THREADS <= n {
        return Sizes {
            threads: MAX_THREADS + 1,
            ..sizes
        };
    }
    put(made, n, thread.pack());
    Sizes {
        threads: n + 1,
        ..sizes
    }
}

/// The cell written last.
pub fn last_cell(sizes: Sizes) -> usize
    ensures { result ≡ sizes.cells - 1 }
{
    sizes.cells.saturating_sub(1)
}
