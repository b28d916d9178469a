// Reads a policy into the table of nodes: question 11.
ghost use Rattle.std.specs.Prelude.{◌≡◌, cond, List, [], ℕ, ◌≤◌, ◌<◌, ◌-◌, length, take};
ghost use Rattle.reading.specs.Read.{got};
ghost use Rattle.reading.specs.Told.{number};
ghost use Rattle.reading.specs.declared.Question.TheVariants as question;
ghost use Rattle.policy.specs.Syntax.{has_bit};
ghost use Rattle.policy.specs.Reading.{two_bytes, is_count, item_at, read_list, counted_list, read_purposes, read_permissions, read_node, read_policy};
ghost use Rattle.policy.specs.Loads.{
  permissions_read,
  PermissionsReadFit,
  group_only,
  count_only,
  opening_read,
  OpeningReadFits,
  read_opening,
  node_read,
  children_read,
  Loaded,
  with_tree,
  no_trees,
  trees_to_end,
  LoadedPolicy,
};

use crate::nodes::{has_bit, store_node};
use crate::{Node, Opening, Permissions, PermissionsAt, PolicyAt, Trees};
use reading::bytes::{byte_at, byte_below};
use reading::{Number, Question, Refusal};

// A refusal at a place of a policy.
fn fault(at: usize) -> Refusal
    ensures { result ≡ record { question = question.Charter; at = at } }
{
    Refusal {
        question: Question::Charter,
        at,
    }
}

// A two-byte number, the low byte first.
#[tactic(auto, using(crate::proofs::ListSteps::word_steps), unfolding(crate::specs::Reading::two_bytes))]
pub fn two_bytes(c: &[u8], at: usize) -> Result<Number, Refusal>
    ensures { number result ≡ two_bytes c.now at }
{
    let first = byte_at(c, at);
    let Ok(low) = first else {
        return first;
    };
    let second = byte_at(c, low.next);
    let Ok(high) = second else {
        return second;
    };
    Ok(Number {
        value: low.value + 256 * high.value,
        next: high.next,
    })
}

// 1 to 4,095, or 65,535 for unlimited.
#[tactic(auto, unfolding(crate::specs::Reading::is_count))]
fn is_count(n: usize) -> bool
    ensures { result ≡ is_count n }
{
    (1..=4095).contains(&n) || n == 65535
}

// An item of a disclose list, whose group is at least `lowest`; the number found is its group.
#[tactic(auto, using(crate::proofs::ListSteps::item_steps))]
fn item_at(c: &[u8], at: usize, lowest: usize) -> Result<Number, Refusal>
    ensures { number result ≡ group_only (item_at c.now lowest at) }
{
    let first = byte_below(c, at, 64);
    let Ok(group) = first else {
        return first;
    };
    if group.value < lowest {
        return Err(fault(at));
    }
    let second = two_bytes(c, group.next);
    let Ok(count) = second else {
        return second;
    };
    if is_count(count.value) {
        Ok(Number {
            value: group.value,
            next: count.next,
        })
    } else {
        Err(fault(group.next))
    }
}

// Reads past `count` items, groups strictly rising; the number found is `count`.
#[tactic(auto, using(crate::proofs::ListSteps::list_steps))]
fn read_list(c: &[u8], at: usize, count: usize) -> Result<Number, Refusal>
    ensures { number result ≡ count_only (read_list count c.now 0 at) }
{
    let mut next = at;
    let mut lowest: usize = 0;
    for _ in 0..count {
        let read = item_at(c, next, lowest);
        let Ok(item) = read else {
            return read;
        };
        next = item.next;
        lowest = item.value + 1;
    }
    Ok(Number { value: count, next })
}

// A counted list: 1 to 64 items.
#[tactic(auto, using(crate::proofs::ListSteps::counted_steps))]
fn counted_list(c: &[u8], at: usize) -> Result<Number, Refusal>
    ensures { number result ≡ count_only (counted_list c.now at) }
{
    let read = byte_below(c, at, 65);
    let Ok(count) = read else {
        return read;
    };
    if count.value == 0 {
        return Err(fault(at));
    }
    read_list(c, count.next, count.value)
}

// The list of a permission map, where bit 4 announces one; the number found is how many items it has.
#[tactic(auto, using(crate::proofs::PermissionSteps::announced_steps))]
fn list_at(c: &[u8], at: usize, map: usize) -> Result<Number, Refusal>
    ensures { number result ≡ count_only (cond (has_bit 16 map) (counted_list c.now at) (got [] at)) }
{
    if has_bit(map, 16) {
        counted_list(c, at)
    } else {
        Ok(Number { value: 0, next: at })
    }
}

// The purposes of a permission map: two bytes where bit 5 announces them, and otherwise all sixteen.
#[tactic(auto, using(crate::proofs::PermissionSteps::announced_steps))]
fn purposes_at(c: &[u8], at: usize, map: usize) -> Result<Number, Refusal>
    ensures { number result ≡ read_purposes map c.now at }
{
    if has_bit(map, 32) {
        two_bytes(c, at)
    } else {
        Ok(Number {
            value: 65535,
            next: at,
        })
    }
}

// A permission map with its list and its purposes: where the list stands, not what it holds.
#[tactic(auto, using(crate::proofs::PermissionSteps::permission_steps))]
fn permissions_at(c: &[u8], at: usize) -> Result<PermissionsAt, Refusal>
    requires { length c.now ≤ 4096 }
    ensures result_value { permissions_read c.now result ≡ read_permissions c.now at }
    ensures permissions_fit { PermissionsReadFit result }
{
    let first = byte_below(c, at, 64);
    let Ok(map) = first else {
        return Err(first.unwrap_err());
    };
    let second = list_at(c, map.next, map.value);
    let Ok(list) = second else {
        return Err(second.unwrap_err());
    };
    let third = purposes_at(c, list.next, map.value);
    let Ok(purposes) = third else {
        return Err(third.unwrap_err());
    };
    let permissions = Permissions {
        map: map.value,
        list: map.next + 1,
        count: list.value,
        purposes: purposes.value,
    };
    Ok(PermissionsAt {
        permissions,
        next: purposes.next,
    })
}

// A node without its children, at a depth.
#[tactic(auto, using(crate::proofs::OpeningSteps::opening_steps))]
fn read_opening(c: &[u8], at: usize, depth: usize) -> Result<Opening, Refusal>
    requires { (depth < 8) × (length c.now ≤ 4096) }
    ensures result_value { opening_read c.now result ≡ read_opening c.now at }
    ensures opening_fits { OpeningReadFits depth result }
{
    let first = byte_below(c, at, 64);
    let Ok(group) = first else {
        return Err(first.unwrap_err());
    };
    let second = permissions_at(c, group.next);
    let Ok(found) = second else {
        return Err(second.unwrap_err());
    };
    let third = byte_at(c, found.next);
    let Ok(count) = third else {
        return Err(third.unwrap_err());
    };
    let permissions = found.permissions;
    let node = Node {
        group: group.value,
        permissions,
        depth,
    };
    Ok(Opening {
        node,
        children: count.value,
        next: count.next,
    })
}

// Reads a node and the nodes below it into the table from row `used` on; the number found is that of the rows then used.
// `level` more nodes may be nested.
#[cycle(read_children_read_node)]
#[tactic(auto, using(crate::proofs::NodeSteps::child_steps, crate::proofs::NodeSteps::root_steps))]
fn read_node(
    c: &[u8],
    at: usize,
    level: usize,
    used: usize,
    nodes: &mut [u16],
) -> Result<Number, Refusal>
    requires { (level ≤ 8) × (length nodes.old ≡ 384) × (length c.now ≤ 4096) }
    ensures { Loaded c.now (node_read (read_node level c.now used at)) (8 - level) used nodes.old
        nodes.new result }
{
    if level == 0 {
        return Err(fault(at));
    }
    if 64 <= used {
        return Err(fault(at));
    }
    let read = read_opening(c, at, 8 - level);
    let Ok(opening) = read else {
        return Err(read.unwrap_err());
    };
    let node = opening.node;
    store_node(nodes, used, node);
    read_children(
        c,
        opening.next,
        opening.children,
        level - 1,
        used + 1,
        nodes,
    )
}

// Reads `count` nodes, one after another.
#[cycle(read_children_read_node)]
#[tactic(auto, using(crate::proofs::NodeSteps::child_steps))]
fn read_children(
    c: &[u8],
    at: usize,
    count: usize,
    level: usize,
    used: usize,
    nodes: &mut [u16],
) -> Result<Number, Refusal>
    requires { (level < 8) × (count < 256) × (length nodes.old ≡ 384) × (length c.now ≤ 4096) }
    ensures { Loaded c.now (children_read level c.now count used at) (8 - level) used nodes.old
        nodes.new result }
{
    let mut next = at;
    let mut rows = used;
    for _ in 0..count {
        let read = read_node(c, next, level, rows, nodes);
        let Ok(child) = read else {
            return read;
        };
        next = child.next;
        rows = child.value;
    }
    Ok(Number { value: rows, next })
}

// One tree more: its kind, and the row after its last node.
#[tactic(auto, unfolding(crate::specs::Loads::with_tree))]
fn with_tree(trees: Trees, kind: usize, end: usize) -> Trees
    requires { trees.len < 16 }
    ensures { result ≡ with_tree trees kind end }
{
    let at = trees.len;
    let mut kinds = trees.kinds;
    let mut ends = trees.ends;
    // Kept: the definition `with_tree` stores remainders.
    kinds[at] = (kind % 256) as u8;
    ends[at] = (end % 256) as u8;
    Trees {
        len: at + 1,
        kinds,
        ends,
    }
}

#[tactic(auto, unfolding(crate::specs::Loads::no_trees))]
pub fn no_trees() -> Trees
    ensures { result ≡ no_trees }
{
    Trees {
        len: 0,
        kinds: [0; 16],
        ends: [0; 16],
    }
}

// Reads `count` trees, one after another, to the end of the policy.
#[tactic(auto, using(crate::proofs::TreeSteps::tree_steps))]
fn read_trees(c: &[u8], at: usize, count: usize, nodes: &mut [u16]) -> Result<PolicyAt, Refusal>
    requires { (count ≤ 16) × (length nodes.old ≡ 384) × (length c.now ≤ 4096) }
    ensures { LoadedPolicy c.now (trees_to_end count c.now at) nodes.new result }
{
    let mut trees = no_trees();
    let mut next = at;
    let mut used: usize = 0;
    for _ in 0..count {
        let first = byte_below(c, next, 16);
        let Ok(kind) = first else {
            return Err(fault(first.unwrap_err().at));
        };
        let second = read_node(c, kind.next, 8, used, nodes);
        let Ok(tree) = second else {
            return Err(fault(second.unwrap_err().at));
        };
        trees = with_tree(trees, kind.value, tree.value);
        next = tree.next;
        used = tree.value;
    }
    if next == c.len() {
        Ok(PolicyAt { trees, next })
    } else {
        Err(fault(next))
    }
}

// Reads a policy to its end.
#[tactic(auto, using(crate::proofs::TreeSteps::policy_steps))]
pub fn read_policy(c: &[u8], nodes: &mut [u16]) -> Result<PolicyAt, Refusal>
    requires { (length nodes.old ≡ 384) × (length c.now ≤ 4096) }
    ensures { LoadedPolicy c.now (read_policy c.now) nodes.new result }
{
    let read = byte_below(c, 0, 17);
    let Ok(count) = read else {
        return Err(fault(read.unwrap_err().at));
    };
    read_trees(c, count.next, count.value, nodes)
}
