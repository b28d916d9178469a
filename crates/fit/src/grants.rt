// What a policy grants a component: the nodes that its path reaches in the tree of a kind, and what they give together.
ghost use Rattle.std.specs.Prelude.{◌≡◌, cond, IfSome, List, map, ℕ, ◌<◌, ◌≤◌, ◌+◌, ◌-◌, ltb, eqb, take, set, length, get_or};
ghost use Rattle.reading.specs.Told.{path_of};
ghost use Rattle.inference.specs.Lists.{every, any};
ghost use Rattle.sharing.specs.Sums.{sum_count};
ghost use Rattle.policy.specs.Syntax.{has_bit};
ghost use Rattle.fit.specs.Grants.{stored_count, listed as listed_in};
ghost use Rattle.policy.specs.Rows.{items_at, permissions_of, flats};
ghost use Rattle.policy.specs.Loads.{Bounded};
ghost use Rattle.fit.specs.Covers.{tree_rows_of};
ghost use Rattle.fit.specs.Givers.{index_of, giver_in, Marked, row_in, given_rows, given_at, granting_row, granting_rows, joined_at};

use crate::{Givers, Grant};
use policy::nodes::{bit_at, has_bit, node_at, span_of, word_in};
use policy::{Node, Permissions, Span, Trees};
use reading::Path;
use reading::bytes::byte_in;
use sharing::add;

/// The tree of a kind: its number, or the number of trees where there is none.
#[tactic(auto, using(crate::proofs::GrantSteps::tree_steps))]
pub fn tree_for(trees: Trees, kind: usize) -> usize
    requires { trees.len ≤ 16 }
    ensures { result ≡ index_of kind (take trees.len trees.kinds) }
{
    let kinds = &trees.kinds[..trees.len];
    kinds
        .iter()
        .position(|k| *k as usize == kind)
        .unwrap_or(trees.len)
}

/// The rows of the tree of a kind, where there is one.
#[tactic(auto, using(crate::proofs::GrantSteps::tree_steps))]
pub fn tree_of(trees: Trees, kind: usize) -> Option<Span>
    requires { Bounded trees }
    ensures value { result ≡ tree_rows_of trees kind }
    ensures few { IfSome result (λ tree. tree.to ≤ 64) }
    ensures whole { length trees.kinds ≡ 16 }
{
    let t = tree_for(trees, kind);
    if t < trees.len {
        Some(span_of(trees, t))
    } else {
        None
    }
}

// What the scan of a tree tells of a group: that it is not in the path, that no node of it is reached so far, or else the row of its first
// node that is; in a byte, of which the definitions `Marked` and `row_in` speak.
const OUTSIDE: u8 = 65;

const UNREACHED: u8 = 64;

// The scan of a tree's rows, in order: what it tells of each group so far, and how deep the next node may stand to be reached.
#[derive(Clone, Copy)]
struct Scan {
    first: [u8; 64],
    limit: usize,
}

impl Scan {
    // Before any node.
    #[tactic(auto, using(crate::proofs::ScanSteps::mark_steps))]
    fn of(path: Path) -> Scan
        ensures marked { Marked (path_of path) result.first }
        ensures at_root { result.limit ≡ 0 }
    {
        let mut first = [OUTSIDE; 64];
        let groups = path.groups();
        for group in groups {
            let group = *group as usize;
            if group < first.len() {
                first[group] = UNREACHED;
            }
        }
        Scan { first, limit: 0 }
    }

    // Past the node that stands in a row. Below one that is reached a node may be reached that is one deeper.
    #[tactic(auto, using(crate::proofs::ScanSteps::pass_steps))]
    fn pass(&mut self, node: Node, row: usize)
        requires { (node.group < 64) × (node.depth < 8) × (row < 64) }
        ensures told { self.new.first ≡ set self.old.first node.group
            (cond (ltb self.old.limit node.depth) (get_or self.old.first node.group 0)
            (cond (eqb (get_or self.old.first node.group 0) 64) row (get_or self.old.first node.group 0))) }
        ensures deep { self.new.limit ≡ cond (ltb self.old.limit node.depth) self.old.limit
            (cond (ltb 64 (get_or self.old.first node.group 0)) node.depth (node.depth + 1)) }
    {
        if self.limit < node.depth {
            return;
        }
        let known = self.first[node.group];
        if known == UNREACHED {
            self.first[node.group] = row as u8;
        }
        self.limit = if known <= UNREACHED {
            node.depth + 1
        } else {
            node.depth
        };
    }

    // The row of the first reached node of a group, or 64. (Kept a number: the definitions `row_in` and `giver_in` give 64.)
    #[tactic(auto, using(crate::proofs::ScanSteps::row_steps))]
    fn row_of(&self, group: usize) -> usize
        ensures { result ≡ row_in self.now.first group }
    {
        if group < self.first.len() {
            (self.first[group].min(UNREACHED)) as usize
        } else {
            64
        }
    }
}

// What the scan tells after all nodes of a tree.
#[tactic(auto, using(crate::proofs::ScanSteps::scan_steps))]
fn scan_tree(nodes: &[u16], tree: Span, path: Path) -> Scan
    requires { tree.to ≤ 64 }
    ensures { (c : List ℕ) (g : ℕ) → row_in result.first g ≡ giver_in (path_of path) g 0 tree.from
        (flats c nodes.now tree.from (tree.to - tree.from)) }
{
    let mut scan = Scan::of(path);
    for row in tree.from..tree.to {
        scan.pass(node_at(nodes, row), row);
    }
    scan
}

/// What gives to a path in a tree.
#[tactic(auto, using(crate::proofs::ScanSteps::givers_steps))]
pub fn givers(nodes: &[u16], tree: Span, path: Path) -> Givers
    requires { tree.to ≤ 64 }
    ensures { (c : List ℕ) → given_rows result
        ≡ map (λ g. giver_in (path_of path) g 0 tree.from (flats c nodes.now tree.from (tree.to - tree.from)))
        (path_of path) }
{
    let scan = scan_tree(nodes, tree, path);
    let groups = path.groups();
    let mut rows = [64usize; 8];
    for (i, group) in groups.iter().enumerate() {
        rows[i] = scan.row_of(*group as usize);
    }
    let len = groups.len();
    Givers { rows, len }
}

// A row, if it grants for a purpose, else 64. (Kept a number: the definitions `granting_row` and `given_at` give 64.)
#[tactic(auto, using(crate::proofs::GrantSteps::purpose_steps))]
fn granting_row(nodes: &[u16], row: usize, purpose: usize) -> usize
    ensures { result ≡ granting_row purpose nodes.now row }
{
    if row < 64 && bit_at(node_at(nodes, row).permissions.purposes, purpose) {
        row
    } else {
        64
    }
}

impl Givers {
    /// The rows, one for each group of the path, in the path's order.
    pub fn rows(&self) -> &[usize]
        ensures value { result.now ≡ given_rows self.now }
        ensures few { length result.now ≤ 8 }
    {
        &self.rows[..self.len.min(8)]
    }

    /// Is each group of the path at a reached node?
    #[tactic(auto, using(crate::proofs::GrantSteps::all_steps))]
    pub fn all_given(&self) -> bool
        ensures { result ≡ every (λ row. ltb row 64) (given_rows self.now) }
    {
        self.rows().iter().all(|row| *row < 64)
    }

    /// Of what gives to a path, what grants for a purpose.
    #[tactic(auto, using(crate::proofs::ScanSteps::givers_steps))]
    pub fn granting(&self, nodes: &[u16], purpose: usize) -> Givers
        ensures { given_rows result ≡ granting_rows purpose nodes.now (given_rows self.now) }
    {
        let given = self.rows();
        let mut rows = [64usize; 8];
        for (i, row) in given.iter().enumerate() {
            rows[i] = granting_row(nodes, *row, purpose);
        }
        let len = given.len();
        Givers { rows, len }
    }
}

// What a row gives; nothing at 64.
#[tactic(auto, using(crate::proofs::GrantSteps::given_steps))]
fn given_at(nodes: &[u16], row: usize) -> Permissions
    ensures by_index { (c : List ℕ) → permissions_of c result ≡ given_at c nodes.now row }
    ensures list_bound { (result.list < 8192) × (result.count < 128) }
{
    if row < 64 {
        node_at(nodes, row).permissions
    } else {
        Permissions {
            map: 0,
            list: 0,
            count: 0,
            purposes: 0,
        }
    }
}

// Does a row give a flag?
#[tactic(auto, using(crate::proofs::GrantSteps::given_steps))]
fn flag_at(nodes: &[u16], row: usize, value: usize) -> bool
    requires { 0 < value }
    ensures { (c : List ℕ) → result ≡ has_bit value (given_at c nodes.now row).map }
{
    has_bit(given_at(nodes, row).map, value)
}

// The stored count for a group in a list, 0 where it is absent.
#[tactic(auto, using(crate::proofs::GrantSteps::item_steps))]
fn listed(charter: &[u8], p: Permissions, group: usize) -> usize
    requires { (p.list < 8192) × (p.count < 128) }
    ensures result_value { stored_count result ≡ listed_in group (items_at p.count charter.now p.list) }
    ensures upper_bound { result < 65536 }
{
    for i in 0..p.count {
        if byte_in(charter, p.list + 3 * i) == group {
            return word_in(charter, p.list + 3 * i + 1);
        }
    }
    0
}

// The stored count for a group that a row gives.
#[tactic(auto, using(crate::proofs::GrantSteps::given_steps))]
fn count_at(charter: &[u8], nodes: &[u16], row: usize, group: usize) -> usize
    ensures result_value { stored_count result ≡ listed_in group (given_at charter.now nodes.now row).list }
    ensures upper_bound { result < 65536 }
{
    listed(charter, given_at(nodes, row), group)
}

/// Is a flag granted by what gives to a path?
#[tactic(auto, using(crate::proofs::GrantSteps::flag_steps))]
pub fn flag_granted(nodes: &[u16], givers: Givers, value: usize) -> bool
    requires { 0 < value }
    ensures { (c : List ℕ) → result ≡ any (λ row. has_bit value (given_at c nodes.now row).map) (given_rows givers) }
{
    let rows = givers.rows();
    rows.iter().any(|row| flag_at(nodes, *row, value))
}

/// The sum of what gives to a path grants for a group; 4,000,000 is unlimited.
#[tactic(auto, using(crate::proofs::GrantSteps::sum_steps))]
pub fn count_granted(charter: &[u8], nodes: &[u16], givers: Givers, group: usize) -> usize
    ensures { sum_count result ≡ joined_at group charter.now nodes.now (given_rows givers) }
{
    let rows = givers.rows();
    let mut total: usize = 0;
    for row in rows {
        total = add(total, count_at(charter, nodes, *row, group));
    }
    total
}

impl Grant<'_> {
    /// Is a flag granted?
    pub fn has_flag(&self, value: usize) -> bool
        requires { 0 < value }
        ensures { (c : List ℕ) → result ≡ any (λ row. has_bit value (given_at c self.now.policy.nodes.now row).map) (given_rows self.now.givers) }
    {
        flag_granted(self.policy.nodes, self.givers, value)
    }

    /// The sum of what the path's groups grant for a group; 4,000,000 is unlimited.
    pub fn count(&self, group: usize) -> usize
        ensures { sum_count result ≡ joined_at group self.now.policy.charter.now self.now.policy.nodes.now (given_rows self.now.givers) }
    {
        count_granted(self.policy.charter, self.policy.nodes, self.givers, group)
    }
}
