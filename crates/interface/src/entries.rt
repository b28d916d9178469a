// How long the interface's entries are, from the table of what components need.
ghost use Rattle.std.specs.Prelude.{◌≡◌, List, ◌≤◌, length};
ghost use Rattle.inference.specs.Rows.{is_set, disclosures_at, entry_at, row_entries};
ghost use Rattle.inference.specs.Interface.{Disclosure, bit as flag, map_of, list_bytes, interface_bytes};
ghost use Rattle.interface.specs.Writes.{entry_bytes_at};

use inference::table::{ACCESSES, Entry, KINDS, READS, Row, WRITES};

/// How many groups a component discloses data of a kind to.
#[tactic(auto, using(crate::proofs::InterfaceSteps::interface_steps))]
pub fn disclosed_groups(entry: Entry) -> usize
    ensures value { result ≡ length (disclosures_at entry.entry.table.now entry.entry.component entry.entry.kind) }
    ensures few { result ≤ 8 }
{
    let mut disclosed = 0;
    for place in 0..entry.row().group_count() {
        disclosed += bit(entry.count(place), 1);
    }
    disclosed
}

/// A value where a count is not 0.
#[tactic(auto, using(crate::proofs::InterfaceSteps::interface_steps))]
pub fn bit(count: usize, value: usize) -> usize
    ensures value { result ≡ flag (is_set count) value }
    ensures few { result ≤ value }
{
    if count == 0 { 0 } else { value }
}

/// The permission map of an entry that discloses to so many groups; 0 where there is no permission.
#[tactic(auto, using(crate::proofs::InterfaceSteps::interface_steps))]
pub fn permission_map(entry: Entry, groups: usize) -> usize
    requires { groups ≡ length (disclosures_at entry.table.now entry.component entry.kind) }
    ensures { result ≡ map_of (entry_at entry.entry.table.now entry.entry.component entry.entry.kind) }
{
    bit(entry.count(READS), 1)
        + (bit(entry.count(WRITES), 2) + (bit(entry.count(ACCESSES), 4) + bit(groups, 16)))
}

// The length of a disclose list of so many groups, 0 where there is none.
#[tactic(auto, using(crate::proofs::InterfaceSteps::interface_steps))]
fn list_len(groups: usize) -> usize
    requires { groups ≤ 8 }
    ensures value { (ds : List Disclosure) → groups ≡ length ds → result ≡ length (list_bytes ds) }
    ensures few { result ≤ 25 }
{
    if groups == 0 { 0 } else { 1 + 3 * groups }
}

/// The length of an entry's bytes, 0 where there is no entry.
#[tactic(auto, using(crate::proofs::InterfaceSteps::interface_steps))]
pub fn entry_len(entry: Entry) -> usize
    ensures { result ≡ length (entry_bytes_at entry.entry.table.now entry.entry.component entry.entry.kind) }
{
    if !entry.is_used() {
        return 0;
    }
    let groups = disclosed_groups(entry);
    if permission_map(entry, groups) == 0 {
        return 0;
    }
    4 + (entry.row().path().groups().len() + list_len(groups))
}

/// The length of the entries of a component.
#[tactic(auto, using(crate::proofs::InterfaceSteps::interface_steps))]
pub fn row_len(row: Row) -> usize
    ensures { result ≡ length (interface_bytes (row_entries row.entry.table.now row.entry.component)) }
{
    let mut len = 0;
    for kind in 0..KINDS {
        len += entry_len(row.entry(kind));
    }
    len
}
