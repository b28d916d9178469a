// Threads as numbers, each field in digits of its own, and a list of threads of which a part is replaced.
// Kept as numbers: the definitions `packed` and `unpacked` and the law `unpack_pack` speak of the digits, and what a run holds
// (`Holds` of the crate products) is told by them.
ghost use Rattle.std.specs.Prelude.{◌≡◌, ◌+◌, ◌-◌, ◌<◌, ◌≤◌, length, take, drop};
ghost use Rattle.std.proofs.Math.Seq.{paste};
ghost use Rattle.memory.specs.Threads.{packed, unpacked, replaced};

use crate::Thread;

impl Thread {
    /// The thread as a number.
    #[tactic(auto, unfolding(crate::specs::Threads::packed))]
    pub fn pack(self) -> usize
        ensures { result ≡ packed self }
    {
        let who = self.env % 65536 * 256 + self.component % 256;
        let scope = who * 128 + self.names % 128;
        (scope * 128 + self.nest % 128) * 8192 + self.at % 8192
    }

    /// The thread that a number stands for.
    #[tactic(auto, unfolding(crate::specs::Threads::unpacked))]
    pub fn unpack(number: usize) -> Thread
        ensures { result ≡ unpacked number }
    {
        let nested = number / 8192;
        let scope = nested / 128;
        let who = scope / 128;
        Thread {
            component: who % 256,
            env: who / 256,
            names: scope % 128,
            nest: nested % 128,
            at: number % 8192,
        }
    }
}

/// The thread that a number stands for.
pub fn unpack(w: usize) -> Thread
    ensures { result ≡ unpacked w }
{
    Thread::unpack(w)
}

// Copies `count` numbers from one table to another. A loop in place of the library's `copy_from_slice`, which calls `memmove`: the static
// library for C asks for `memcpy` and `memset` alone.
#[tactic(auto, using(crate::proofs::SpliceSteps::copy_steps))]
fn copy(dst: &mut [usize], to: usize, src: &[usize], from: usize, count: usize)
    requires { (to + count ≤ length dst.old) × (from + count ≤ length src.now) }
    ensures { dst.new ≡ paste dst.old to (drop from src.now) count }
{
    for i in 0..count {
        dst[to + i] = src[from + i];
    }
}

// Moves `count` numbers within a table towards its front: the first goes first, since none is overwritten before it has gone.
#[tactic(auto, using(crate::proofs::SpliceSteps::down_steps))]
fn shift_down(threads: &mut [usize], from: usize, to: usize, count: usize)
    requires { (to < from) × (from + count ≤ length threads.old) }
    ensures { threads.new ≡ paste threads.old to (drop from threads.old) count }
{
    for i in 0..count {
        threads[to + i] = threads[from + i];
    }
}

// Moves `count` numbers within a table towards its end: the last goes first.
#[tactic(auto, using(crate::proofs::SpliceSteps::up_steps))]
fn shift_up(threads: &mut [usize], from: usize, to: usize, count: usize)
    requires { (from < to) × (to + count ≤ length threads.old) }
    ensures { threads.new ≡ paste threads.old to (drop from threads.old) count }
{
    for i in (0..count).rev() {
        threads[to + i] = threads[from + i];
    }
}

// Moves `count` numbers within a table.
#[tactic(auto, using(crate::proofs::SpliceSteps::shift_steps))]
fn shift(threads: &mut [usize], from: usize, to: usize, count: usize)
    requires { (to + count ≤ length threads.old) × (from + count ≤ length threads.old) }
    ensures { threads.new ≡ paste threads.old to (drop from threads.old) count }
{
    if to < from {
        shift_down(threads, from, to, count);
        return;
    }
    if from < to {
        shift_up(threads, from, to, count);
    }
}

/// Of a list of `len` threads, puts others in place of those from `at` up to `from`.
#[tactic(auto, using(crate::proofs::SpliceSteps::splice_steps))]
pub fn replace(threads: &mut [usize], len: usize, at: usize, from: usize, others: &[usize])
    requires { (at ≤ from) × (from ≤ len) × (len ≤ 128) × (at + length others.now + (len - from) ≤ 128) × (length threads.old ≡ 128) }
    ensures { take (at + length others.now + (len - from)) threads.new ≡ replaced (take len threads.old) at from others.now }
{
    shift(threads, from, at + others.len(), len - from);
    copy(threads, at, others, 0, others.len());
}

/// Of a list of `len` threads, replaces those from `at` up to `from` by `count` of those made, from `first` on. Beside `replace`, for a
/// caller that cannot lend a part of what it made as a slice.
#[tactic(auto, using(crate::proofs::SpliceSteps::splice_steps))]
pub fn splice(
    threads: &mut [usize],
    len: usize,
    at: usize,
    from: usize,
    made: &[usize],
    first: usize,
    count: usize,
)
    requires { (at ≤ from) × (from ≤ len) × (len ≤ 128) × (at + count + (len - from) ≤ 128)
        × (first + count ≤ length made.now) × (length threads.old ≡ 128) }
    ensures { take (at + count + (len - from)) threads.new
        ≡ replaced (take len threads.old) at from (take count (drop first made.now)) }
{
    replace(threads, len, at, from, &made[first..first + count]);
}
