// A communication's products, each in its own thread's place, where there is room; the sender's new names come first.
ghost use Rattle.std.specs.Prelude.{◌≡◌, true, ◌+◌, ◌-◌, ◌<◌, ◌≤◌, length, take};
ghost use Rattle.continuations.specs.Places.{Tables, room_for};
ghost use Rattle.continuations.specs.Exchanges.{part_of, both_replaced, swapped, MakesBoth, PutsBoth, Exchanging};

use crate::placing::{has_room, none_made};
use crate::widening::{under_cell, with_cell};
use crate::{BothMade, Exchange, Part};
use memory::chains::bind;
use memory::threads::splice;
use products::Sizes;
use products::processes::make_process;

// What both continuations make, the sender's first, and then the receiver's under the name disclosed, which takes the next cell.
#[tactic(auto, using(crate::proofs::ExchangeSteps::both_steps))]
fn make_both(
    forms: &[usize],
    x: Exchange,
    sizes: Sizes,
    made: &mut [usize],
    types: &mut [u32],
    cells: &mut [u32],
) -> BothMade
    ensures { MakesBoth forms.now x sizes made.old made.new
        types.old types.new cells.old cells.new result }
{
    let first = make_process(forms, x.mine, sizes, made, types, cells);
    bind(cells, first.cells, x.theirs.env, x.sent);
    let theirs = under_cell(x.theirs, first.cells);
    let begun = with_cell(first);
    let all = make_process(forms, theirs, begun, made, types, cells);
    BothMade {
        mine: first.threads,
        sizes: all,
    }
}

// Of a list of `len` threads, replaces two by what was made for each; `a` is for the earlier one. The later one goes first, so
// that the index of the earlier one stays valid.
#[tactic(auto, using(crate::proofs::ExchangeSteps::swap_steps))]
fn splice_two(threads: &mut [usize], len: usize, a: Part, b: Part, made: &[usize])
    requires { (a.at < b.at) × (b.at < len) × (len ≤ 64) × (len + (a.count + b.count) ≤ 66)
        × (a.first + a.count ≤ length made.now)
        × (b.first + b.count ≤ length made.now) × (length threads.old ≡ 128) }
    ensures { take (len - 2 + (a.count + b.count)) threads.new
        ≡ both_replaced (take len threads.old) a.at b.at
        (part_of a made.now) (part_of b made.now) }
{
    let rest = len - 1 + b.count;
    splice(threads, len, b.at, b.at + 1, made, b.first, b.count);
    splice(threads, rest, a.at, a.at + 1, made, a.first, a.count);
}

// The same, whichever is the earlier one.
#[tactic(auto, using(crate::proofs::ExchangeSteps::swap_steps))]
fn swap(threads: &mut [usize], len: usize, mine: Part, theirs: Part, made: &[usize])
    requires { (mine.at < len) × (theirs.at < len) × (mine.at ≡ theirs.at → ⊥)
        × (len ≤ 64) × (len + (mine.count + theirs.count) ≤ 66)
        × (mine.first + mine.count ≤ length made.now)
        × (theirs.first + theirs.count ≤ length made.now) × (length threads.old ≡ 128) }
    ensures { take (len - 2 + (mine.count + theirs.count)) threads.new
        ≡ swapped (take len threads.old) mine.at theirs.at
        (part_of mine made.now) (part_of theirs made.now) }
{
    if mine.at < theirs.at {
        splice_two(threads, len, mine, theirs, made);
        return;
    }
    splice_two(threads, len, theirs, mine, made);
}

// Puts what was made in place of the two threads, where there is room. Neither two equal indices nor fewer threads in all than the
// sender's can be met; what is asked of them keeps every index in its table.
#[tactic(auto, using(crate::proofs::ExchangeSteps::put_both_steps))]
fn put_both(
    threads: &mut [usize],
    sizes: Sizes,
    x: Exchange,
    made: &[usize],
    products: BothMade,
) -> Option<Sizes>
    requires { (x.sender < sizes.threads) × (x.receiver < sizes.threads)
        × (sizes.threads ≤ 64) × (length threads.old ≡ 128) × (length made.now ≡ 128) }
    ensures { (x.sender ≡ x.receiver → ⊥) → products.mine ≤ products.sizes.threads
        → PutsBoth sizes x products made.now threads.old threads.new result }
{
    let after = products.sizes;
    if x.sender == x.receiver || after.threads < products.mine {
        return None;
    }
    let kept = sizes.threads - 2;
    if !has_room(kept, after) {
        return None;
    }
    let mine = Part {
        at: x.sender,
        first: 0,
        count: products.mine,
    };
    let theirs = Part {
        at: x.receiver,
        first: products.mine,
        count: after.threads - products.mine,
    };
    swap(threads, sizes.threads, mine, theirs, made);
    Some(Sizes {
        threads: kept + after.threads,
        ..after
    })
}

/// Replaces a sender and a receiver by what their continuations make; the sizes afterwards, if there is room (35).
pub fn exchange(
    forms: &[usize],
    x: Exchange,
    sizes: Sizes,
    threads: &mut [usize],
    made: &mut [usize],
    types: &mut [u32],
    cells: &mut [u32],
) -> Option<Sizes>
    requires there { (x.sender < sizes.threads) × (x.receiver < sizes.threads) }
    requires tables { Tables sizes threads.old made.old types.old cells.old }
    ensures { Exchanging forms.now x sizes threads.old types.old cells.old
        threads.new types.new cells.new result }
{
    let before = none_made(sizes);
    let products = make_both(forms, x, before, made, types, cells);
    put_both(threads, sizes, x, made, products)
}
