// 01, the unfolding of a replication (document 01: a copy): it makes what it repeats, which goes before it.
ghost use Rattle.running.specs.Moves.{unfold_step};
ghost use Rattle.continuations.specs.Places.{Tables};
ghost use Rattle.transitions.specs.Steps.{SteppedAny};

use crate::{MoveRefusal, Moved};
use continuations::Prefix;
use continuations::placing::replace;
use continuations::prefixes::{continuation, prefix_of, thread_at};
use products::Sizes;
use script::Record;

/// 01: the unfolding of the replication at index `i`.
pub fn unfold_replication(
    forms: &[usize],
    i: usize,
    sizes: Sizes,
    threads: &mut [usize],
    made: &mut [usize],
    types: &mut [u32],
    cells: &mut [u32],
) -> Result<Moved, MoveRefusal>
    requires { Tables sizes threads.old made.old types.old cells.old }
    ensures { SteppedAny forms.now sizes threads.old types.old cells.old
        threads.new types.new cells.new (λ state. unfold_step state i) result }
{
    if sizes.threads <= i {
        return Err(MoveRefusal::NoThread);
    }
    let thread = thread_at(threads, i);
    let Some(prefix) = prefix_of(forms, thread, cells) else {
        return Err(MoveRefusal::OtherPrefix);
    };
    let Prefix::Repeats(next) = prefix else {
        return Err(MoveRefusal::OtherPrefix);
    };
    let copy = continuation(thread, next);
    let Some(sizes) = replace(forms, copy, i, i, sizes, threads, made, types, cells) else {
        return Err(MoveRefusal::NoRoom);
    };
    Ok(Moved {
        sizes,
        line: Record {
            number: 0,
            label: 6,
            channel: 65535,
            name: 65535,
            actor: thread.component,
            receiver: 255,
        },
    })
}
