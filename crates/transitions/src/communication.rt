// 04, a communication of a sender and a receiver on one channel.
ghost use Rattle.running.specs.Moves.{communicate_step};
ghost use Rattle.continuations.specs.Places.{Tables};
ghost use Rattle.transitions.specs.Steps.{SteppedAny};

use crate::{MoveRefusal, Moved};
use continuations::exchanging::exchange;
use continuations::prefixes::{continuation, prefix_of, thread_at};
use continuations::{Exchange, Prefix};
use products::Sizes;
use script::{Communication, Record};

/// 04: a communication.
pub fn communicate(
    forms: &[usize],
    m: Communication,
    sizes: Sizes,
    threads: &mut [usize],
    made: &mut [usize],
    types: &mut [u32],
    cells: &mut [u32],
) -> Result<Moved, MoveRefusal>
    requires { Tables sizes threads.old made.old types.old cells.old }
    ensures { SteppedAny forms.now sizes threads.old types.old cells.old
        threads.new types.new cells.new (λ state. communicate_step state m.sender m.receiver) result }
{
    if sizes.threads <= m.sender {
        return Err(MoveRefusal::NoThread);
    }
    if sizes.threads <= m.receiver {
        return Err(MoveRefusal::NoThread);
    }
    let sender = thread_at(threads, m.sender);
    let receiver = thread_at(threads, m.receiver);
    let Some(front) = prefix_of(forms, sender, cells) else {
        return Err(MoveRefusal::OtherPrefix);
    };
    let Prefix::Sends(give) = front else {
        return Err(MoveRefusal::OtherPrefix);
    };
    let Some(back) = prefix_of(forms, receiver, cells) else {
        return Err(MoveRefusal::OtherPrefix);
    };
    let Prefix::Receives(take) = back else {
        return Err(MoveRefusal::OtherPrefix);
    };
    if give.channel != take.channel {
        return Err(MoveRefusal::OtherChannel);
    }
    let mine = continuation(sender, give.next);
    let theirs = continuation(receiver, take.next);
    let pair = Exchange {
        sender: m.sender,
        receiver: m.receiver,
        mine,
        theirs,
        sent: give.object,
    };
    let Some(sizes) = exchange(forms, pair, sizes, threads, made, types, cells) else {
        return Err(MoveRefusal::NoRoom);
    };
    Ok(Moved {
        sizes,
        line: Record {
            number: 0,
            label: 1,
            channel: give.channel,
            name: give.object,
            actor: sender.component,
            receiver: receiver.component,
        },
    })
}
