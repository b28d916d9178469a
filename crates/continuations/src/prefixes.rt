// The thread at an index, its prefix, and what follows.
ghost use Rattle.std.specs.Prelude.{◌≡◌, ◌-◌, ◌<◌, length, get_or};
ghost use Rattle.memory.specs.Threads.{unpacked};
ghost use Rattle.memory.specs.Chains.{chain};
ghost use Rattle.continuations.specs.Prefixes.{continuation_of, PrefixFound};

use crate::{Action, Prefix};
use decoding::words::item_at;
use memory::Thread;
use memory::chains::name_at;
use reading::{Act, Form};

/// The thread at an index, which must be one.
pub fn thread_at(threads: &[usize], i: usize) -> Thread
    requires { i < length threads.now }
    ensures { result ≡ unpacked (get_or threads.now i 0) }
{
    Thread::unpack(threads[i])
}

// A receive, with the run name of its channel.
#[tactic(auto, using(crate::proofs::PrefixSteps::prefix_steps))]
fn receives(act: Act, next: usize, t: Thread, cells: &[u32]) -> Prefix
    ensures { result ≡ Prefix.Receives (record {
      channel = get_or (chain cells.now t.names t.env) act.channel 65535;
      object = act.object;
      next = next;
    }) }
{
    Prefix::Receives(Action {
        channel: name_at(cells, t.names, t.env, act.channel),
        object: act.object,
        next,
    })
}

// A send, with the run names of its channel and of what it sends.
#[tactic(auto, using(crate::proofs::PrefixSteps::prefix_steps))]
fn sends(act: Act, next: usize, t: Thread, cells: &[u32]) -> Prefix
    ensures { result ≡ Prefix.Sends (record {
      channel = get_or (chain cells.now t.names t.env) act.channel 65535;
      object = get_or (chain cells.now t.names t.env) act.object 65535;
      next = next;
    }) }
{
    Prefix::Sends(Action {
        channel: name_at(cells, t.names, t.env, act.channel),
        object: name_at(cells, t.names, t.env, act.object),
        next,
    })
}

/// The prefix of a thread, with run names for its own; none where no move can act on what it begins with.
#[tactic(auto, using(crate::proofs::PrefixSteps::prefix_steps))]
pub fn prefix_of(forms: &[usize], t: Thread, cells: &[u32]) -> Option<Prefix>
    ensures { PrefixFound forms.now cells.now t result }
{
    if t.nest == 0 {
        return None;
    }
    let item = item_at(forms, t.at);
    match item.form {
        Form::Input(act) => Some(receives(act, item.next, t, cells)),
        Form::Output(act) => Some(sends(act, item.next, t, cells)),
        Form::Replicate => Some(Prefix::Repeats(item.next)),
        _ => None,
    }
}

/// What follows at `next`, under the same names.
#[tactic(auto, using(crate::proofs::PrefixSteps::prefix_steps))]
pub fn continuation(t: Thread, next: usize) -> Thread
    ensures { result ≡ continuation_of t next }
{
    Thread {
        nest: t.nest.saturating_sub(1),
        at: next % 8192,
        ..t
    }
}
