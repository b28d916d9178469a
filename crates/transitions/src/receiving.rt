// 03, a receive from the environment, of a known name that has the bound type.
ghost use Rattle.std.specs.Prelude.{◌≡◌, length};
ghost use Rattle.running.specs.Moves.{receive_step};
ghost use Rattle.continuations.specs.Places.{Tables};
ghost use Rattle.transitions.specs.Steps.{Stepped};

use crate::{MoveRefusal, Moved};
use continuations::Prefix;
use continuations::placing::replace;
use continuations::prefixes::{continuation, prefix_of, thread_at};
use continuations::widening::{under_cell, with_cell};
use memory::chains::bind;
use memory::names::{is_known, type_of};
use products::Sizes;
use script::{Receipt, Record};

/// 03: a receive from the environment. The name received takes the next cell, over which the continuation stands.
pub fn receive_in(
    forms: &[usize],
    m: Receipt,
    sizes: Sizes,
    threads: &mut [usize],
    made: &mut [usize],
    types: &mut [u32],
    known: &[bool],
    cells: &mut [u32],
) -> Result<Moved, MoveRefusal>
    requires tables { Tables sizes threads.old made.old types.old cells.old }
    requires known { length known.now ≡ 1024 }
    ensures { Stepped forms.now sizes
        threads.old types.old known.now cells.old
        threads.new types.new known.now cells.new
        (λ state. receive_step state m.thread m.name) result }
{
    if sizes.threads <= m.thread {
        return Err(MoveRefusal::NoThread);
    }
    let thread = thread_at(threads, m.thread);
    let Some(prefix) = prefix_of(forms, thread, cells) else {
        return Err(MoveRefusal::OtherPrefix);
    };
    let Prefix::Receives(act) = prefix else {
        return Err(MoveRefusal::OtherPrefix);
    };
    if !is_known(known, sizes.names, act.channel) {
        return Err(MoveRefusal::NotKnown);
    }
    if !is_known(known, sizes.names, m.name) {
        return Err(MoveRefusal::NotKnown);
    }
    if type_of(types, sizes.names, m.name) != act.object {
        return Err(MoveRefusal::OtherType);
    }
    let follows = continuation(thread, act.next);
    let process = under_cell(follows, sizes.cells);
    bind(cells, sizes.cells, thread.env, m.name);
    let wider = with_cell(sizes);
    let Some(sizes) = replace(
        forms,
        process,
        m.thread,
        m.thread + 1,
        wider,
        threads,
        made,
        types,
        cells,
    ) else {
        return Err(MoveRefusal::NoRoom);
    };
    Ok(Moved {
        sizes,
        line: Record {
            number: 0,
            label: 2,
            channel: act.channel,
            name: m.name,
            actor: thread.component,
            receiver: 255,
        },
    })
}
