// 02, a send to the environment: the name sent becomes known there.
ghost use Rattle.std.specs.Prelude.{◌≡◌, cond, length};
ghost use Rattle.running.specs.Moves.{send_step};
ghost use Rattle.continuations.specs.Places.{Tables};
ghost use Rattle.transitions.specs.Steps.{Stepped};

use crate::outcomes::know_sent;
use crate::{MoveRefusal, Moved};
use continuations::placing::replace;
use continuations::prefixes::{continuation, prefix_of, thread_at};
use continuations::{Action, Prefix};
use memory::names::is_known;
use products::Sizes;
use script::Record;

// What the log says of a send to the environment; `old` if the name sent was known before.
#[tactic(auto, using(crate::proofs::SendSteps::line_steps))]
fn sent_line(act: Action, component: usize, old: bool) -> Record
    ensures { result ≡ record {
      number = 0;
      label = cond old 3 4;
      channel = act.channel;
      name = act.object;
      actor = component;
      receiver = 255;
    } }
{
    Record {
        number: 0,
        label: if old { 3 } else { 4 },
        channel: act.channel,
        name: act.object,
        actor: component,
        receiver: 255,
    }
}

/// 02: the send of the thread at index `i` to the environment.
pub fn send_out(
    forms: &[usize],
    i: usize,
    sizes: Sizes,
    threads: &mut [usize],
    made: &mut [usize],
    types: &mut [u32],
    known: &mut [bool],
    cells: &mut [u32],
) -> Result<Moved, MoveRefusal>
    requires tables { Tables sizes threads.old made.old types.old cells.old }
    requires known { length known.old ≡ 1024 }
    ensures { Stepped forms.now sizes
        threads.old types.old known.old cells.old
        threads.new types.new known.new cells.new (λ state. send_step state i) result }
{
    if sizes.threads <= i {
        return Err(MoveRefusal::NoThread);
    }
    let thread = thread_at(threads, i);
    let Some(prefix) = prefix_of(forms, thread, cells) else {
        return Err(MoveRefusal::OtherPrefix);
    };
    let Prefix::Sends(act) = prefix else {
        return Err(MoveRefusal::OtherPrefix);
    };
    if !is_known(known, sizes.names, act.channel) {
        return Err(MoveRefusal::NotKnown);
    }
    let old = is_known(known, sizes.names, act.object);
    let follows = continuation(thread, act.next);
    let Some(sizes) = replace(forms, follows, i, i + 1, sizes, threads, made, types, cells) else {
        return Err(MoveRefusal::NoRoom);
    };
    know_sent(known, sizes, act.object);
    Ok(Moved {
        sizes,
        line: sent_line(act, thread.component, old),
    })
}
