// Components that share a count: what each class of them needs to disclose, in sums that are made once for a table.
// The sums stand in lent memory, in a row of 129 cells for each component. Cell 0 is the number of the first component of its class; in
// that component's row stand, from cell 1 on, for each kind the sums of the class for its groups, by their places. 4,000,000 is unlimited.
// Where no components share, there is no such memory, and each needs its own counts.
#![tactic(auto)]

ghost use Rattle.std.specs.Prelude.{◌≡◌, ◌<◌, ◌≤◌, ◌%◌, length, get_or, set};
ghost use Rattle.inference.specs.Rows.{cell, row_groups};
ghost use Rattle.sharing.specs.Sums.{added, add_at, add_kind, add_row, add_rows, any_shared, first_with, key_of, needed_at, row_key, sum_at, sum_cell};

use inference::table::{COMPONENTS, Entry, GROUPS, KINDS, Row};

// The cells of a component's row of sums.
const SUM_ROW: usize = 1 + KINDS * GROUPS;

// The sum that is unlimited.
const UNLIMITED: usize = 4_000_000;

// A number for the groups of a component's path, one for each set of groups: they are its digits.
#[tactic(auto, using(crate::proofs::SumSteps::key_steps))]
fn groups_key(row: Row) -> usize
    ensures value { result ≡ key_of (row_groups row.entry.table.now row.entry.component) }
    ensures few { result < 318644812890625 }
{
    let count = row.group_count();
    let mut key = 0;
    for taken in 0..count {
        key = key * 65 + (row.group_at(count - 1 - taken) % 64 + 1);
    }
    key
}

// The same with its purpose as the last digit: one for each class.
#[tactic(auto, using(crate::proofs::SumSteps::class_steps))]
fn class_key(row: Row) -> usize
    ensures { result ≡ row_key row.entry.table.now row.entry.component }
{
    groups_key(row) * 16 + row.purpose() % 16
}

// The place of the sum of a class, a kind and a group.
#[tactic(auto, using(crate::proofs::SumSteps::cell_steps))]
fn sum_cell(class: usize, kind: usize, place: usize) -> usize
    requires { (class < 4294967296) × (kind < 16) × (place < 8) }
    ensures { result ≡ sum_cell class kind place }
{
    class * SUM_ROW + (1 + (kind * GROUPS + place))
}

// What stands in a cell, 0 past the end.
fn cell_in(sums: &[u32], at: usize) -> usize
    ensures value { result ≡ get_or sums.now at 0 }
    ensures few { result < 4294967296 }
{
    sums.get(at).copied().unwrap_or(0) as usize
}

// Stores a number in a cell, where there is such a cell.
fn put(sums: &mut [u32], at: usize, value: usize)
    ensures { sums.new ≡ set sums.old at (value % 4294967296) }
{
    if at < sums.len() {
        // Kept: the definition `add_at` cuts each sum to 32 binary digits so.
        sums[at] = (value % 4294967296) as u32;
    }
}

/// A count joined to a sum; 65,535 is an unlimited count.
#[tactic(auto, using(crate::proofs::SumSteps::cell_steps))]
pub fn add(sum: usize, count: usize) -> usize
    requires { sum < 4294967296 }
    ensures { result ≡ added sum count }
{
    if 65535 <= count {
        return UNLIMITED;
    }
    if sum < UNLIMITED { sum + count } else { sum }
}

// Joins a count to the sum in a cell.
#[tactic(auto, using(crate::proofs::SumSteps::cell_steps))]
fn add_at(sums: &mut [u32], at: usize, count: usize)
    ensures { sums.new ≡ add_at sums.old at count }
{
    let sum = add(cell_in(sums, at), count);
    put(sums, at, sum);
}

// Joins a component's counts for a kind to the sums of its class, where anything of the kind is needed.
#[tactic(auto, using(crate::proofs::SumSteps::place_steps))]
fn add_kind(sums: &mut [u32], class: usize, entry: Entry)
    requires { class < 32 }
    ensures { sums.new ≡ add_kind sums.old class entry.entry.table.now entry.entry.component entry.entry.kind }
{
    if !entry.is_used() {
        return;
    }
    for place in 0..entry.row().group_count() {
        let at = sum_cell(class, entry.kind, place);
        add_at(sums, at, entry.count(place));
    }
}

// Joins all counts of a component to the sums of its class, and notes the class.
#[tactic(auto, using(crate::proofs::SumSteps::row_steps))]
fn add_row(sums: &mut [u32], class: usize, row: Row)
    requires { class < 32 }
    ensures { sums.new ≡ add_row sums.old class row.entry.table.now row.entry.component }
{
    put(sums, row.component * SUM_ROW, class);
    for kind in 0..KINDS {
        add_kind(sums, class, row.entry(kind));
    }
}

// The first of the keys up to a component's that is the same: the number of the first component of its class.
#[tactic(auto, using(crate::proofs::SumSteps::seek_steps))]
fn first_of(keys: &[usize], component: usize) -> usize
    requires { component < length keys.now }
    ensures value { result ≡ first_with (get_or keys.now component 0) keys.now 0 component }
    ensures few { result ≤ component }
{
    let key = keys[component];
    for earlier in 0..component {
        if keys[earlier] == key {
            return earlier;
        }
    }
    component
}

/// The sums of all classes of the components in a table, in clear memory.
#[tactic(auto, using(crate::proofs::SumSteps::sum_steps))]
pub fn sum_classes(table: &[u16], components: usize, sums: &mut [u32])
    requires { components ≤ 32 }
    ensures { sums.new ≡ add_rows sums.old table.now 0 components }
{
    let mut keys = [0; COMPONENTS];
    for component in 0..components {
        let row = Row { table, component };
        keys[component] = class_key(row);
        add_row(sums, first_of(&keys, component), row);
    }
}

/// Do any two of the components share a count?
#[tactic(auto, using(crate::proofs::SumSteps::compare_steps))]
pub fn any_shared(table: &[u16], components: usize) -> bool
    requires { components ≤ 32 }
    ensures { result ≡ any_shared table.now 0 components }
{
    let mut keys = [0; COMPONENTS];
    for component in 0..components {
        keys[component] = class_key(Row { table, component });
        if first_of(&keys, component) < component {
            return true;
        }
    }
    false
}

// The sum of a component's class for a kind and the group at a place.
#[tactic(auto, using(crate::proofs::SumSteps::cell_steps))]
fn sum_at(sums: &[u32], component: usize, kind: usize, place: usize) -> usize
    requires { (component < 32) × (kind < 16) × (place < 8) }
    ensures { result ≡ sum_at sums.now component kind place }
{
    let class = cell_in(sums, component * SUM_ROW);
    cell_in(sums, sum_cell(class, kind, place))
}

/// How much a component's class needs to disclose data of a kind into the group at a place among the component's groups. Without sums,
/// which nobody makes where no components share, it is the component's own count.
#[tactic(auto, using(crate::proofs::SumSteps::needed_steps))]
pub fn needed(sums: &[u32], entry: Entry, place: usize) -> usize
    requires { place < 8 }
    ensures { result ≡ needed_at sums.now entry.entry.table.now entry.entry.component entry.entry.kind place }
{
    if sums.is_empty() {
        return add(0, entry.count(place));
    }
    sum_at(sums, entry.component, entry.kind, place)
}
