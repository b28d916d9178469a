// Products in their thread's place, where there is room (document 01: "Products stand in their thread's place"; 35).
ghost use Rattle.std.specs.Prelude.{◌≡◌, ◌≤◌, length};
ghost use Rattle.continuations.specs.Places.{Tables, room_for, Replacing};

use memory::Thread;
use memory::threads::splice;
use products::Sizes;
use products::processes::make;

/// Is there room for 64 threads and 1,024 names afterwards, where `kept` threads stay beside those made (35)?
#[tactic(auto, using(crate::proofs::RoomLaws::room_steps))]
pub fn has_room(kept: usize, sizes: Sizes) -> bool
    requires { kept ≤ 64 }
    ensures { result ≡ room_for kept sizes }
{
    sizes.threads <= 64 && kept + sizes.threads <= 64 && sizes.names <= 1024
}

/// The sizes before any product of a move.
pub fn none_made(sizes: Sizes) -> Sizes
    ensures { result ≡ record { threads = 0; names = sizes.names; cells = sizes.cells } }
{
    Sizes {
        threads: 0,
        ..sizes
    }
}

/// Replaces the threads from `at` up to `from` by what a process makes; the sizes afterwards, if there is room (35).
pub fn replace(
    forms: &[usize],
    process: Thread,
    at: usize,
    from: usize,
    sizes: Sizes,
    threads: &mut [usize],
    made: &mut [usize],
    types: &mut [u32],
    cells: &mut [u32],
) -> Option<Sizes>
    requires ordered { (at ≤ from) × (from ≤ sizes.threads) }
    requires tables { Tables sizes threads.old made.old types.old cells.old }
    ensures { Replacing forms.now process at from sizes
        threads.old types.old cells.old
        threads.new types.new cells.new result }
{
    let before = none_made(sizes);
    let after = make(forms, process, before, made, types, cells);
    let kept = at + (sizes.threads - from);
    if !has_room(kept, after) {
        return None;
    }
    let count = after.threads;
    splice(threads, sizes.threads, at, from, made, 0, count);
    Some(Sizes {
        threads: kept + count,
        ..after
    })
}
