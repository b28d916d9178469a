// Policies (document 01: charters): their reading, question 11. The nodes of a policy that is read stand in a table, in
// reading order.
#![tactic(auto)]

ghost use Rattle.std.specs.Prelude.{◌≡◌, length};
ghost use Rattle.policy.specs.Loads.{Bounded};

pub mod nodes;
pub mod read;

// A node's permission map, where its disclose list stands (the place of its first item, and how many there are: 0 where it has no
// list), and the purposes for which it grants, bit p for purpose p.
#[derive(Clone, Copy, Debug, PartialEq, Eq)]
pub struct Permissions {
    pub map: usize,
    pub list: usize,
    pub count: usize,
    pub purposes: usize,
}

// A permission map with its list and its purposes, and the place after them.
#[derive(Clone, Copy, Debug, PartialEq, Eq)]
pub struct PermissionsAt {
    pub permissions: Permissions,
    pub next: usize,
}

// A node of the table: its group, its permissions, and how many nodes stand above it.
#[derive(Clone, Copy, Debug, PartialEq, Eq)]
pub struct Node {
    pub group: usize,
    pub permissions: Permissions,
    pub depth: usize,
}

// A node without its children: its fields, how many children follow it, and the place of the first.
#[derive(Clone, Copy, Debug, PartialEq, Eq)]
pub struct Opening {
    pub node: Node,
    pub children: usize,
    pub next: usize,
}

// The trees of a policy: how many, and for each its kind and the table's row after its last node. (Arrays with a length stay, since nothing
// is allocated, and the definitions `with_tree`, `start_of` and `AllHeld` speak of them.)
#[derive(Clone, Copy, Debug, PartialEq, Eq)]
pub struct Trees {
    pub len: usize,
    pub kinds: [u8; 16],
    pub ends: [u8; 16],
}

/// The trees of a policy, and the place after it.
#[derive(Clone, Copy, Debug, PartialEq, Eq)]
pub struct PolicyAt {
    pub trees: Trees,
    pub next: usize,
}

// The rows of one tree: from its root's row up to `to`.
#[derive(Clone, Copy, Debug, PartialEq, Eq)]
pub struct Span {
    pub from: usize,
    pub to: usize,
}

/// A policy that was read, as its parts are lent: the bytes of its charter, the table of its nodes and its trees. The table has 64
/// rows of six cells, and every tree's rows are among them.
#[derive(Clone, Copy)]
pub struct Policy<'a> {
    pub charter: &'a [u8],
    pub nodes: &'a [u16],
    pub trees: Trees,
    pub ghost whole_table: { length nodes.now ≡ 384 },
    pub ghost bounded: { Bounded trees },
}
