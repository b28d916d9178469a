// What is written into the table of what components need; `table` tells what stands in a row, and reads it. Question 10 lets a component
// disclose into the groups of its path alone.
ghost use Rattle.std.specs.Prelude.{◌≡◌, ◌∷◌, ◌+◌, ◌-◌, ◌*◌, ◌%◌, ◌<◌, ◌≤◌, min, length, get_or, set};
ghost use Rattle.reading.specs.Told.{path_of};
ghost use Rattle.inference.specs.Rows.{
  bumped,
  charge,
  charge_cell,
  charge_column,
  found_group,
  found_place,
  group_count,
  marked,
  next_group,
  place_from,
  rising_groups,
  stored,
  with_groups,
  with_path,
  with_purpose,
};

use crate::table::{
    ACCESSES, GROUP_COUNT, GROUPS, KINDS, MARK, PURPOSE, READS, ROW, Row, UNLIMITED, WRITES,
    cell_of,
};
use needs::Need;
use reading::Path;

/// One more, or unlimited under a repeat.
#[tactic(auto, using(crate::proofs::RowSteps::row_steps))]
pub fn bump(count: u16, repeated: bool) -> u16
    ensures { result ≡ bumped count repeated }
{
    if repeated {
        UNLIMITED
    } else if count < UNLIMITED - 1 {
        count + 1
    } else {
        count
    }
}

// Counts once in the cell of a component's row for a kind and a column.
#[tactic(auto, using(crate::proofs::RowSteps::row_steps))]
fn charge_cell(table: &mut [u16], component: usize, kind: usize, column: usize, repeated: bool)
    requires { component < 32 }
    ensures { table.new ≡ charge_cell table.old component kind column repeated }
{
    if kind < KINDS && column < MARK {
        let at = cell_of(component, kind, column);
        if at < table.len() {
            table[at] = bump(table[at], repeated);
        }
    }
}

// Marks a kind as one that a component needs something of.
#[tactic(auto, using(crate::proofs::RowSteps::row_steps))]
fn mark(table: &mut [u16], component: usize, kind: usize)
    requires { component < 32 }
    ensures { table.new ≡ marked table.old component kind }
{
    if kind < KINDS {
        put(table, cell_of(component, kind, MARK), 1);
    }
}

// Counts once in a column of a kind, and marks the kind.
#[tactic(auto, using(crate::proofs::RowSteps::row_steps))]
fn charge_column(table: &mut [u16], component: usize, kind: usize, column: usize, repeated: bool)
    requires { component < 32 }
    ensures { table.new ≡ charge_column table.old component kind column repeated }
{
    mark(table, component, kind);
    charge_cell(table, component, kind, column, repeated);
}

// The place of a group among those of a component's path, if it is one of them.
#[tactic(auto, using(crate::proofs::RowSteps::row_steps))]
fn place_of(table: &[u16], component: usize, group: usize) -> Option<usize>
    requires { component < 32 }
    ensures { result ≡ found_place (place_from table.now component group 0 (group_count table.now component)) }
{
    let row = Row { table, component };
    let count = row.group_count();
    for place in 0..count {
        if row.group_at(place) == group {
            return Some(place);
        }
    }
    None
}

/// Counts what an act needs in its component's row.
#[tactic(auto, using(crate::proofs::RowSteps::row_steps))]
pub fn charge_need(table: &mut [u16], component: usize, need: Need, repeated: bool)
    requires { component < 32 }
    ensures { table.new ≡ charge table.old component need repeated }
{
    match need {
        Need::Nothing => {}
        Need::Read(kind) => charge_column(table, component, kind, READS, repeated),
        Need::Write(kind) => charge_column(table, component, kind, WRITES, repeated),
        Need::Access(kind) => charge_column(table, component, kind, ACCESSES, repeated),
        Need::Disclose { kind, group } => match place_of(table, component, group) {
            Some(place) => charge_column(table, component, kind, place, repeated),
            None => mark(table, component, kind),
        },
    }
}

/// How many groups a path has.
pub fn path_len(path: Path) -> usize
    ensures { result ≡ length (path_of path) }
{
    path.groups().len()
}

// The first group of a path from a group on.
#[tactic(auto, using(crate::proofs::GroupRows::near_steps))]
fn next_group(path: Path, from: usize) -> Option<usize>
    ensures { result ≡ found_group (next_group (path_of path) from) }
{
    let groups = path.groups();
    let mut best: usize = 64;
    for &group in groups {
        if from <= group as usize {
            best = best.min(group as usize);
        }
    }
    if best < 64 { Some(best) } else { None }
}

// Stores the groups of a component's path, rising, in its row.
#[tactic(auto, using(crate::proofs::GroupRows::rise_steps))]
fn store_groups(table: &mut [u16], component: usize, path: Path)
    requires { component < 32 }
    ensures { table.new ≡ with_groups table.old component (rising_groups (path_of path)) }
{
    let row = component * ROW;
    let mut count: usize = 0;
    let mut from: usize = 0;
    while let Some(group) = next_group(path, from) {
        put(table, row + (GROUP_COUNT + 1) + count, group);
        count += 1;
        from = group + 1;
    }
    put(table, row + GROUP_COUNT, count);
}

// Stores a component's path in its row, group by group as it stands.
#[tactic(auto, using(crate::proofs::PathRows::path_rows))]
fn store_steps(table: &mut [u16], component: usize, path: Path)
    requires { component < 32 }
    ensures { table.new ≡ stored table.old (component * 211) (length (path_of path) ∷ path_of path) }
{
    let row = component * ROW;
    let groups = path.groups();
    put(table, row, groups.len());
    for (place, &group) in groups.iter().enumerate() {
        put(table, row + 1 + place, group as usize);
    }
}

/// Stores a component's path in its row, as it stands and rising.
#[tactic(auto, using(crate::proofs::GroupRows::rise_steps))]
pub fn store_path(table: &mut [u16], component: usize, path: Path)
    requires { component < 32 }
    ensures { table.new ≡ with_path table.old component (path_of path) }
{
    store_steps(table, component, path);
    store_groups(table, component, path);
}

/// Stores a component's purpose in its row.
#[tactic(auto, unfolding(crate::specs::Rows::with_purpose))]
pub fn store_purpose(table: &mut [u16], component: usize, purpose: usize)
    requires { component < 32 }
    ensures { table.new ≡ with_purpose table.old component purpose }
{
    put(table, component * ROW + PURPOSE, purpose);
}

// Stores a number in a cell of 16 bits, where there is one.
fn put(table: &mut [u16], at: usize, value: usize)
    ensures { table.new ≡ set table.old at (value % 65536) }
{
    if at < table.len() {
        // Kept: the definitions store what a cell of 16 bits holds of a number.
        table[at] = (value % 65536) as u16;
    }
}
