// The run names of the binders that a thread has passed, as chains of cells. A cell holds the cell of the binder before and a
// name, as one number of 32 binary digits. Cells are written once, so that threads share what they have in common.
// Kept as numbers: the definitions `bound` and `chain`, of which the laws of ChainLaws.antt speak, read a cell by its digits.
ghost use Rattle.std.specs.Prelude.{◌≡◌, get_or};
ghost use Rattle.memory.specs.Chains.{bound, parent_of, name_of, chain};

use crate::put;

/// Writes the cell of a binder with its run name; `env` is the cell of the binder before.
#[tactic(auto, unfolding(crate::specs::Chains::bound))]
pub fn bind(cells: &mut [u32], cell: usize, env: usize, name: usize)
    ensures { cells.new ≡ bound cells.old cell env name }
{
    // Kept: the definition `bound` packs what 16 bits hold of both.
    put(cells, cell, (env % 65536 * 65536 + name % 65536) as u32);
}

// What stands in a cell, 0 past the table's end.
fn cell_at(cells: &[u32], cell: usize) -> usize
    ensures { result ≡ get_or cells.now cell 0 }
{
    cells.get(cell).copied().unwrap_or(0) as usize
}

// The cell of the binder before; never a later cell.
#[tactic(auto, unfolding(crate::specs::Chains::parent_of))]
fn parent_of(cells: &[u32], cell: usize) -> usize
    ensures { result ≡ parent_of cells.now cell }
{
    let parent = cell_at(cells, cell) / 65536;
    if parent < cell { parent } else { 0 }
}

/// The run name at a level, of `names` names of which the innermost stands in cell `env`; 65,535 where there is none.
// Kept with a number for none: the definition `run_name` of the crate running, of which its theorems speak, gives it.
#[tactic(auto, unfolding(crate::specs::Chains::name_of), using(crate::proofs::ChainSteps::search_steps))]
pub fn name_at(cells: &[u32], names: usize, env: usize, level: usize) -> usize
    ensures { result ≡ get_or (chain cells.now names env) level 65535 }
{
    if names <= level {
        return 65535;
    }
    let mut cell = env;
    for _passed in 0..names - level - 1 {
        cell = parent_of(cells, cell);
    }
    cell_at(cells, cell) % 65536
}
