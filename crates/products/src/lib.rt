// What a process or a system makes at once (document 01, "Running"): threads and new names, into lent memory; and the start
// of a run.
#![tactic(auto)]

pub mod giving;
pub mod processes;
pub mod start;
pub mod systems;

/// The most threads that a state may have.
pub const MAX_THREADS: usize = 64;

/// The most names that a run may give.
pub const MAX_NAMES: usize = 1024;

/// The most cells in which the run names of binders stand.
pub const MAX_CELLS: usize = 2304;

/// How many names, threads and cells are in use. More than 64 threads count as 65, more than 1,024 names as 1,025: the definitions
/// speak of these counts (`sizes_pushed`, `sizes_given`).
// In this order no two fields that stand side by side are copied as one right after they were set one by one, which is slow.
#[derive(Clone, Copy, PartialEq, Eq, Debug)]
pub struct Sizes {
    pub names: usize,
    pub threads: usize,
    pub cells: usize,
}

/// The tables in which threads and names are made: `forms`, a sheet's forms decoded; `made`, for the threads; `types`, the type of
/// each name given so far; and `cells`, the run names of the binders passed.
#[derive(Drop)]
pub struct Maker<'a> {
    pub forms: &'a [usize],
    pub made: &'a mut [usize],
    pub types: &'a mut [u32],
    pub cells: &'a mut [u32],
}

/// What was made of types that were read: the place after them, and the sizes afterwards.
#[derive(Clone, Copy, PartialEq, Eq, Debug)]
pub struct Made {
    pub next: usize,
    pub sizes: Sizes,
}

/// What was made of a system: the number of components so far, and the sizes afterwards.
#[derive(Clone, Copy, PartialEq, Eq, Debug)]
pub struct MadeSystem {
    pub components: usize,
    pub sizes: Sizes,
}
