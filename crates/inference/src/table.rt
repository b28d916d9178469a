// The table of what components need, in lent memory: its shape, and its rows and entries as they are read.
// A row has 211 cells. Cell 0 is the length of its path, cells 1 to 8 its path; cell 9 is the number of its path's groups, cells 10 to
// 17 these groups, rising; and from cell 18 on for each kind 11 counts, of disclosures into these groups, of reads, of writes and of
// accesses, then a mark: 1 where anything of the kind is needed; the last cell is its purpose. 65,535 is unlimited.

ghost use Rattle.std.specs.Prelude.{◌≡◌, ◌<◌, ◌≤◌, get_or};
ghost use Rattle.inference.specs.Rows.{cell_of};

use reading::Path;

/// The most components that a sheet has, and the rows of a whole table.
pub const COMPONENTS: usize = 32;

/// The kinds of data.
pub const KINDS: usize = 16;

/// The most groups of a path.
pub const GROUPS: usize = 8;

/// The columns of a kind: disclosures by group, reads, writes, accesses, the mark.
pub const COLUMNS: usize = GROUPS + 4;

/// The column of a kind's reads.
pub const READS: usize = GROUPS;

/// The column of a kind's writes.
pub const WRITES: usize = GROUPS + 1;

/// The column of a kind's accesses.
pub const ACCESSES: usize = GROUPS + 2;

/// The column of a kind's mark: 1 where anything of the kind is needed.
pub const MARK: usize = GROUPS + 3;

/// The cell of a row that counts the groups of its path; these groups follow it, rising.
pub const GROUP_COUNT: usize = GROUPS + 1;

/// The cells of a row before its counts.
pub const HEAD: usize = 2 * (GROUPS + 1);

/// The cell of a row that is its purpose.
pub const PURPOSE: usize = HEAD + KINDS * COLUMNS;

/// The cells of a row.
pub const ROW: usize = PURPOSE + 1;

/// The cells of a table of few components, four at most.
pub const FEW_CELLS: usize = 4 * ROW;

/// The cells of a table of as many components as a sheet has.
pub const CELLS: usize = COMPONENTS * ROW;

/// The count that is unlimited.
pub const UNLIMITED: u16 = 65535;

/// The place of the cell of a component, a kind and a column.
#[tactic(auto, using(crate::proofs::RowSteps::row_steps))]
pub fn cell_of(component: usize, kind: usize, column: usize) -> usize
    requires { (component < 32) × (kind < 16) × (column < 12) }
    ensures { result ≡ cell_of component kind column }
{
    component * ROW + (HEAD + (kind * COLUMNS + column))
}

/// What stands in a cell, 0 past the table's end.
pub fn cell_at(table: &[u16], at: usize) -> usize
    ensures { result ≡ get_or table.now at 0 }
{
    table.get(at).copied().unwrap_or(0) as usize
}

/// The row of a component in a table.
#[derive(Clone, Copy)]
pub struct Row<'a> {
    pub table: &'a [u16],
    pub component: usize,
    pub ghost in_table: { component < 32 },
}

/// The entry of a component and a kind in a table.
#[derive(Clone, Copy)]
pub struct Entry<'a> {
    pub table: &'a [u16],
    pub component: usize,
    pub kind: usize,
    pub ghost in_table: { component < 32 },
    pub ghost is_kind: { kind < 16 },
}

impl<'a> Row<'a> {
    ghost use Rattle.inference.specs.Rows.{group_count, group_at, path_at, purpose_at};
    ghost use Rattle.reading.specs.Told.{path_of};

    /// The row of a component in a table.
    pub fn new(table: &'a [u16], component: usize) -> Self
        requires { component < 32 }
        ensures same_table { result.table.now ≡ table.now }
        ensures same_component { result.component ≡ component }
    {
        Row { table, component }
    }

    /// How many groups the component's path has.
    #[tactic(auto, using(crate::proofs::RowSteps::row_steps))]
    pub fn group_count(self) -> usize
        ensures value { result ≡ group_count self.entry.table.now self.entry.component }
        ensures few { result ≤ 8 }
    {
        cell_at(self.table, self.component * ROW + GROUP_COUNT).min(GROUPS)
    }

    /// The group at a place among these groups, which rise.
    #[tactic(auto, using(crate::proofs::RowSteps::row_steps))]
    pub fn group_at(self, place: usize) -> usize
        requires { place < 8 }
        ensures { result ≡ group_at self.entry.table.now self.entry.component place }
    {
        cell_at(self.table, self.component * ROW + (GROUP_COUNT + 1 + place))
    }

    /// The component's path.
    #[tactic(auto, using(crate::proofs::PathRows::path_rows))]
    pub fn path(self) -> Path
        ensures { path_of result ≡ path_at self.entry.table.now self.entry.component }
    {
        let row = self.component * ROW;
        let mut groups = [0u16; GROUPS];
        for place in 0..GROUPS {
            groups[place] = self.table.get(row + (1 + place)).copied().unwrap_or(0);
        }
        Path {
            groups,
            len: cell_at(self.table, row).min(self.table.len().saturating_sub(row + 1)),
        }
    }

    /// The component's purpose.
    #[tactic(auto, unfolding(crate::specs::Rows::purpose_at))]
    pub fn purpose(self) -> usize
        ensures { result ≡ purpose_at self.entry.table.now self.entry.component }
    {
        cell_at(self.table, self.component * ROW + PURPOSE)
    }

    /// The component's entry of a kind.
    pub fn entry(self, kind: usize) -> Entry<'a>
        requires { kind < 16 }
        ensures same_table { result.table.now ≡ self.entry.table.now }
        ensures same_component { result.component ≡ self.entry.component }
        ensures same_kind { result.kind ≡ kind }
    {
        Entry {
            table: self.table,
            component: self.component,
            kind,
        }
    }
}

impl<'a> Entry<'a> {
    ghost use Rattle.inference.specs.Rows.{cell, is_set};

    /// The entry of a component and a kind in a table.
    pub fn new(table: &'a [u16], component: usize, kind: usize) -> Self
        requires { (component < 32) × (kind < 16) }
        ensures same_table { result.table.now ≡ table.now }
        ensures same_component { result.component ≡ component }
        ensures same_kind { result.kind ≡ kind }
    {
        Entry {
            table,
            component,
            kind,
        }
    }

    /// The row that the entry stands in.
    pub fn row(self) -> Row<'a>
        ensures same_table { result.table.now ≡ self.entry.table.now }
        ensures same_component { result.component ≡ self.entry.component }
    {
        Row {
            table: self.table,
            component: self.component,
        }
    }

    /// The count in a column: of the disclosures to the group at a place, of `READS`, `WRITES` or `ACCESSES`, or the mark in `MARK`.
    #[tactic(auto, unfolding(crate::specs::Rows::cell))]
    pub fn count(self, column: usize) -> usize
        requires { column < 12 }
        ensures { result ≡ cell self.entry.table.now self.entry.component self.entry.kind column }
    {
        cell_at(self.table, cell_of(self.component, self.kind, column))
    }

    /// Does the component need anything of the kind?
    #[tactic(auto, unfolding(crate::specs::Rows::is_set))]
    pub fn is_used(self) -> bool
        ensures { result ≡ is_set (cell self.entry.table.now self.entry.component self.entry.kind 11) }
    {
        self.count(MARK) != 0
    }
}
