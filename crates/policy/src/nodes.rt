// The table of a policy's nodes, in lent memory: a row of six cells of two bytes for each node, at most 64 rows.
ghost use Rattle.std.specs.Prelude.{◌≡◌, ◌<◌, ◌≤◌, ◌%◌, get_or, set, take, eqb};
ghost use Rattle.std.specs.List.{position};
ghost use Rattle.policy.specs.Syntax.{has_bit, bit_at};
ghost use Rattle.policy.specs.Rows.{node_at, with_node, word_in};
ghost use Rattle.policy.specs.Loads.{start_of};

use crate::{Node, Permissions, Policy, Span, Trees};
use reading::bytes::byte_in;

// A cell of the table, 0 past its end.
fn cell(nodes: &[u16], at: usize) -> usize
    ensures { result ≡ get_or nodes.now at 0 }
{
    nodes.get(at).copied().unwrap_or(0) as usize
}

// The node in a row, each cell within its range.
#[tactic(auto, using(crate::proofs::NodeLaws::node_steps))]
pub fn node_at(nodes: &[u16], row: usize) -> Node
    requires { row ≤ 64 }
    ensures { result ≡ node_at nodes.now row }
{
    let base = row * 6;
    let permissions = Permissions {
        map: cell(nodes, base + 1) % 64,
        list: cell(nodes, base + 2) % 8192,
        count: cell(nodes, base + 3) % 128,
        purposes: cell(nodes, base + 5) % 65536,
    };
    Node {
        group: cell(nodes, base) % 64,
        permissions,
        depth: cell(nodes, base + 4) % 8,
    }
}

// Stores a number, cut to two bytes, in a cell; past the table's end it stores nothing.
#[tactic(auto, using(crate::proofs::NodeLaws::node_steps))]
fn put(nodes: &mut [u16], at: usize, value: usize)
    ensures { nodes.new ≡ set nodes.old at (value % 65536) }
{
    if at < nodes.len() {
        // Kept: the definition `with_node` stores remainders.
        nodes[at] = (value % 65536) as u16;
    }
}

// Stores a node in a row.
pub fn store_node(nodes: &mut [u16], row: usize, node: Node)
    requires { row < 64 }
    ensures { nodes.new ≡ with_node nodes.old row node }
{
    let base = row * 6;
    let permissions = node.permissions;
    put(nodes, base, node.group);
    put(nodes, base + 1, permissions.map);
    put(nodes, base + 2, permissions.list);
    put(nodes, base + 3, permissions.count);
    put(nodes, base + 4, node.depth);
    put(nodes, base + 5, permissions.purposes);
}

// The two-byte number at a place of a policy, the low byte first.
#[tactic(auto, using(crate::proofs::NodeLaws::node_steps), unfolding(crate::specs::Rows::word_in))]
pub fn word_in(c: &[u8], at: usize) -> usize
    requires { at < 1000000 }
    ensures value { result ≡ word_in c.now at }
    ensures upper_bound { result < 65536 }
{
    byte_in(c, at) + 256 * byte_in(c, at + 1)
}

// Bit 2 ^ k of a map; `value` is 2 ^ k.
#[tactic(auto, unfolding(crate::specs::Syntax::has_bit))]
pub fn has_bit(map: usize, value: usize) -> bool
    requires { 0 < value }
    ensures { result ≡ has_bit value map }
{
    map / value % 2 != 0
}

// Bit `place` of a map.
#[tactic(auto, using(crate::proofs::BitSteps::bit_steps))]
pub fn bit_at(map: usize, place: usize) -> bool
    ensures { result ≡ bit_at place map }
{
    place < 64 && (map >> place) % 2 != 0
}

// A kind or an end of the trees, at full width.
pub fn wide_byte(b: u8) -> usize
    ensures { result ≡ b }
{
    b as usize
}

// The rows of the t-th tree.
#[tactic(auto, using(crate::proofs::SpanSteps::span_steps))]
pub fn span_of(trees: Trees, t: usize) -> Span
    requires { t < 16 }
    ensures { (result.from ≡ start_of trees t) × (result.to ≡ get_or trees.ends t 0) }
{
    let ends = trees.ends;
    if t == 0 {
        Span {
            from: 0,
            to: wide_byte(ends[0]),
        }
    } else {
        Span {
            from: wide_byte(ends[t - 1]),
            to: wide_byte(ends[t]),
        }
    }
}

impl<'a> Policy<'a> {
    /// The node in a row of the table.
    pub fn node(&self, row: usize) -> Node
        requires { row ≤ 64 }
        ensures { result ≡ node_at self.now.nodes.now row }
    {
        node_at(self.nodes, row)
    }

    /// How many trees there are, at most 16.
    pub fn tree_count(&self) -> usize
        ensures value { result ≡ self.now.trees.len }
        ensures few { result ≤ 16 }
    {
        self.trees.len
    }

    /// The kind of the t-th tree.
    pub fn kind(&self, t: usize) -> usize
        requires { t < 16 }
        ensures { result ≡ get_or self.now.trees.kinds t 0 }
    {
        self.trees.kinds[t] as usize
    }

    /// The rows of the t-th tree, which are rows of the table.
    pub fn span(&self, t: usize) -> Span
        requires { t < 16 }
        ensures value { (result.from ≡ start_of self.now.trees t) × (result.to ≡ get_or self.now.trees.ends t 0) }
        ensures in_table { result.to ≤ 64 }
    {
        span_of(self.trees, t)
    }

    /// The number of the first tree of a kind, where there is one.
    pub fn tree_for(&self, kind: usize) -> Option<usize>
        ensures { result ≡ position (λ k. eqb k kind) (take self.now.trees.len self.now.trees.kinds) }
    {
        self.trees.kinds[..self.trees.len]
            .iter()
            .position(|&k| k as usize == kind)
    }
}
