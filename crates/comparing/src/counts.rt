// The counts of two disclose lists whose groups rise, compared in one pass over both.
ghost use Rattle.std.specs.Prelude.{◌≡◌, ◌<◌, ◌≤◌, ◌+◌, ◌-◌, ◌*◌};
ghost use Rattle.policy.specs.Rows.{items_at};
ghost use Rattle.comparing.specs.Rows.{from_group, first_count, lists_within};

use policy::Permissions;
use policy::nodes::word_in;
use reading::bytes::byte_in;

// The place in a list, from `from` on, of the first item whose group is not below one; the list's length where there is none.
#[tactic(auto, using(crate::proofs::CountSteps::count_steps))]
fn first_from(c: &[u8], p: Permissions, from: usize, group: usize) -> usize
    requires { (p.list < 8192) × (p.count < 128) × (from ≤ p.count) }
    ensures upper_bound { result ≤ p.count }
    ensures result_value { items_at (p.count - result) c.now (p.list + 3 * result)
        ≡ from_group group (items_at (p.count - from) c.now (p.list + 3 * from)) }
{
    for i in from..p.count {
        if group <= byte_in(c, p.list + 3 * i) {
            return i;
        }
    }
    p.count
}

// The stored count of a group at an item of a list; 0 where the item is of another group, or past the end.
#[tactic(auto, using(crate::proofs::CountSteps::count_steps))]
fn count_at(c: &[u8], p: Permissions, i: usize, group: usize) -> usize
    requires { (p.list < 8192) × (p.count < 128) }
    ensures { result ≡ first_count group (items_at (p.count - i) c.now (p.list + 3 * i)) }
{
    if p.count <= i {
        return 0;
    }
    let item = p.list + 3 * i;
    if byte_in(c, item) == group {
        word_in(c, item + 1)
    } else {
        0
    }
}

// Is each count of a list at most that of its group in another?
#[tactic(auto, using(crate::proofs::CountSteps::list_steps))]
pub fn lists_within(a: &[u8], p: Permissions, b: &[u8], q: Permissions) -> bool
    requires { (p.list < 8192) × (p.count < 128) × (q.list < 8192) × (q.count < 128) }
    ensures { result ≡ lists_within (items_at p.count a.now p.list) (items_at q.count b.now q.list) }
{
    let mut j: usize = 0;
    for i in 0..p.count {
        let group = byte_in(a, p.list + 3 * i);
        j = first_from(b, q, j, group);
        if count_at(b, q, j, group) < word_in(a, p.list + 3 * i + 1) {
            return false;
        }
    }
    true
}
