// The writing of the interface into a lent output.
ghost use Rattle.std.specs.Prelude.{◌≡◌, [], ◌∷◌, ◌+◌, ◌<◌, ◌≤◌, length};
ghost use Rattle.inference.specs.Rows.{path_at, disclosures_at, entry_at, row_entries, table_entries};
ghost use Rattle.inference.specs.Interface.{map_of, disclosure_bytes, head_then, list_bytes, interface_bytes};
ghost use Rattle.inference.specs.Lists.{gather};
ghost use Rattle.interface.specs.Writes.{Stored, group_bytes, entry_bytes_at};

use crate::entries::{disclosed_groups, permission_map};
use inference::table::{Entry, KINDS, Row};

/// A lent output, and the place in it that is written next. Past the output's end nothing is stored, and the place goes on.
#[derive(Drop)]
pub struct Output<'a> {
    pub bytes: &'a mut [u8],
    pub next: usize,
}

impl Output<'_> {
    /// Stores a byte, where there is room.
    #[tactic(auto, using(crate::proofs::InterfaceSteps::interface_steps))]
    pub fn put(&mut self, value: usize)
        requires { self.old.next < 4294967296 }
        ensures stored { Stored self.old.bytes.now self.new.bytes.now self.old.next
            (value ∷ []) self.new.next }
        ensures lent { self.new.bytes.ghost_name ≡ self.old.bytes.ghost_name }
    {
        let at = self.next;
        if at < self.bytes.len() {
            // Kept: the definition `store_bytes` cuts each number to a byte so.
            self.bytes[at] = (value % 256) as u8;
        }
        self.next = at + 1;
    }

    // Writes the groups of a path.
    #[tactic(auto, using(crate::proofs::InterfaceSteps::interface_steps))]
    fn put_groups(&mut self, groups: &[u16])
        requires { (length groups.now ≤ 8) × (self.old.next < 4100000000) }
        ensures stored { Stored self.old.bytes.now self.new.bytes.now self.old.next
            groups.now self.new.next }
        ensures near { self.new.next ≤ self.old.next + 8 }
        ensures lent { self.new.bytes.ghost_name ≡ self.old.bytes.ghost_name }
    {
        for &group in groups {
            self.put(group as usize);
        }
    }

    // Writes a component's path: its length, then its groups.
    #[tactic(auto, using(crate::proofs::InterfaceSteps::interface_steps))]
    fn put_path(&mut self, row: Row)
        requires { self.old.next < 4000000000 }
        ensures stored { Stored self.old.bytes.now self.new.bytes.now self.old.next
            (length (path_at row.entry.table.now row.entry.component) ∷ path_at row.entry.table.now row.entry.component) self.new.next }
        ensures near { self.new.next ≤ self.old.next + 9 }
        ensures lent { self.new.bytes.ghost_name ≡ self.old.bytes.ghost_name }
    {
        let path = row.path();
        self.put(path.groups().len());
        self.put_groups(path.groups());
    }

    // Writes a group and a two-byte count, the low byte first; nothing where the count is 0.
    #[tactic(auto, using(crate::proofs::InterfaceSteps::interface_steps))]
    fn put_disclosure(&mut self, count: usize, group: usize)
        requires { self.old.next < 4100000000 }
        ensures stored { Stored self.old.bytes.now self.new.bytes.now self.old.next
            (group_bytes group count) self.new.next }
        ensures lent { self.new.bytes.ghost_name ≡ self.old.bytes.ghost_name }
    {
        if count == 0 {
            return;
        }
        self.put(group);
        self.put(count);
        self.put(count / 256);
    }

    // Writes the groups that a component discloses data of a kind to, with their counts.
    #[tactic(auto, using(crate::proofs::InterfaceSteps::interface_steps))]
    fn put_disclosures(&mut self, entry: Entry)
        requires { self.old.next < 4010000000 }
        ensures stored { Stored self.old.bytes.now self.new.bytes.now self.old.next
            (gather disclosure_bytes (disclosures_at entry.entry.table.now entry.entry.component entry.entry.kind)) self.new.next }
        ensures lent { self.new.bytes.ghost_name ≡ self.old.bytes.ghost_name }
    {
        let row = entry.row();
        for place in 0..row.group_count() {
            let group = row.group_at(place);
            self.put_disclosure(entry.count(place), group);
        }
    }

    // Writes an entry's disclose list of so many groups, where there is one.
    #[tactic(auto, using(crate::proofs::InterfaceSteps::interface_steps))]
    fn put_list(&mut self, entry: Entry, groups: usize)
        requires { (groups ≡ length (disclosures_at entry.table.now entry.component entry.kind)) × (self.old.next < 4000000000) }
        ensures stored { Stored self.old.bytes.now self.new.bytes.now self.old.next
            (list_bytes (disclosures_at entry.entry.table.now entry.entry.component entry.entry.kind)) self.new.next }
        ensures lent { self.new.bytes.ghost_name ≡ self.old.bytes.ghost_name }
    {
        if groups == 0 {
            return;
        }
        self.put(groups);
        self.put_disclosures(entry);
    }

    /// Writes an entry up to its map: kind, path, purpose, map.
    #[tactic(auto, using(crate::proofs::InterfaceSteps::interface_steps))]
    pub fn put_head(&mut self, entry: Entry, map: usize)
        requires { (map ≡ map_of (entry_at entry.table.now entry.component entry.kind)) × (self.old.next < 3500000000) }
        ensures stored { Stored self.old.bytes.now self.new.bytes.now self.old.next
            (head_then (entry_at entry.entry.table.now entry.entry.component entry.entry.kind) []) self.new.next }
        ensures near { self.new.next ≤ self.old.next + 12 }
        ensures lent { self.new.bytes.ghost_name ≡ self.old.bytes.ghost_name }
    {
        let row = entry.row();
        self.put(entry.kind);
        self.put_path(row);
        self.put(row.purpose());
        self.put(map);
    }

    // Writes the entry of a component and a kind, where there is one.
    #[tactic(auto, using(crate::proofs::InterfaceSteps::interface_steps))]
    fn put_entry(&mut self, entry: Entry)
        requires { self.old.next < 3000000000 }
        ensures stored { Stored self.old.bytes.now self.new.bytes.now self.old.next
            (entry_bytes_at entry.entry.table.now entry.entry.component entry.entry.kind) self.new.next }
        ensures lent { self.new.bytes.ghost_name ≡ self.old.bytes.ghost_name }
    {
        if !entry.is_used() {
            return;
        }
        let groups = disclosed_groups(entry);
        let map = permission_map(entry, groups);
        if map == 0 {
            return;
        }
        self.put_head(entry, map);
        self.put_list(entry, groups);
    }

    // Writes the entries of a component.
    #[tactic(auto, using(crate::proofs::InterfaceSteps::interface_steps))]
    fn put_row(&mut self, row: Row)
        requires { self.old.next < 2000000000 }
        ensures stored { Stored self.old.bytes.now self.new.bytes.now self.old.next
            (interface_bytes (row_entries row.entry.table.now row.entry.component)) self.new.next }
        ensures lent { self.new.bytes.ghost_name ≡ self.old.bytes.ghost_name }
    {
        for kind in 0..KINDS {
            self.put_entry(row.entry(kind));
        }
    }

    /// Writes the entries of all components of a table.
    #[tactic(auto, using(crate::proofs::InterfaceSteps::interface_steps))]
    pub fn put_table(&mut self, table: &[u16], components: usize)
        requires { (components ≤ 32) × (self.old.next < 1000000000) }
        ensures stored { Stored self.old.bytes.now self.new.bytes.now self.old.next
            (interface_bytes (table_entries table.now components)) self.new.next }
        ensures lent { self.new.bytes.ghost_name ≡ self.old.bytes.ghost_name }
    {
        for component in 0..components {
            self.put_row(Row { table, component });
        }
    }
}

/// Stores a byte at a place of a lent output, where there is room, and answers the next place.
pub fn put(out: &mut [u8], at: usize, value: usize) -> usize
    requires { at < 4294967296 }
    ensures { Stored out.old out.new at (value ∷ []) result }
{
    let mut output = Output {
        bytes: out,
        next: at,
    };
    output.put(value);
    output.next
}

/// Writes an entry up to its map at a place of a lent output; the place after it.
pub fn put_head(entry: Entry, map: usize, out: &mut [u8], at: usize) -> usize
    requires { (map ≡ map_of (entry_at entry.table.now entry.component entry.kind)) × (at < 3500000000) }
    ensures stored { Stored out.old out.new at
        (head_then (entry_at entry.entry.table.now entry.entry.component entry.entry.kind) []) result }
    ensures near { result ≤ at + 12 }
{
    let mut output = Output {
        bytes: out,
        next: at,
    };
    output.put_head(entry, map);
    output.next
}
