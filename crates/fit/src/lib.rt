// Whether a policy satisfies the interface that a table of components holds: what it grants of what an entry needs, questions 16 to 18,
// and the first permission that it does not cover.
#![tactic(auto)]

pub mod cover;
pub mod entries;
pub mod grants;
pub mod uncovered;

use policy::Policy;

/// What gives to a path: for each of its groups the row of the group's first reached node, or 64. (The definitions `giver_in` and
/// `given_at` speak of rows by these numbers.)
#[derive(Clone, Copy)]
pub struct Givers {
    pub rows: [usize; 8],
    pub len: usize,
}

/// A policy, of which the entries of a table are asked, and the sums of what the table's classes need: none where no components share.
#[derive(Clone, Copy)]
pub struct Case<'a> {
    pub policy: Policy<'a>,
    pub sums: &'a [u32],
}

/// What a policy grants a component for data of a kind: what gives to its path in the kind's tree and grants for its purpose.
#[derive(Clone, Copy)]
pub struct Grant<'a> {
    pub policy: Policy<'a>,
    pub givers: Givers,
}

/// What a policy says to a flag: the entry does not need it, it is granted, or it is not.
#[derive(Clone, Copy, PartialEq, Eq, Debug)]
pub enum Flag {
    Unneeded,
    Granted,
    Lacking,
}

#[derive(Clone, Copy)]
pub struct Flags {
    pub read: Flag,
    pub write: Flag,
    pub access: Flag,
}

// A group that an entry discloses to: the sum that its class needs, and the one that its path is granted; 4,000,000 is unlimited.
#[derive(Clone, Copy)]
pub struct Sum {
    pub group: usize,
    pub needed: usize,
    pub granted: usize,
}

// The first `len` are those of an entry, by rising group; `items` gives them as a slice. (Nothing is allocated.)
#[derive(Clone, Copy)]
pub struct Sums {
    pub items: [Sum; 8],
    pub len: usize,
}

// What an entry comes to in the tree of its kind: is each group of its path at a reached node, and what is granted of what it needs.
#[derive(Clone, Copy)]
pub struct Covering {
    pub reached: bool,
    pub flags: Flags,
    pub sums: Sums,
}

/// A permission of an entry: to read, write or access data of its kind, or to disclose it to a group.
#[derive(Clone, Copy, PartialEq, Eq, Debug)]
pub enum Permission {
    Read,
    Write,
    Access,
    Disclose(usize),
}

/// A permission of the entry of a component and a kind that the policy does not cover.
#[derive(Clone, Copy)]
pub struct Missing {
    pub component: usize,
    pub kind: usize,
    pub permission: Permission,
}
