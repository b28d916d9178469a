// 05, the environment makes a name.
ghost use Rattle.std.specs.Prelude.{◌≡◌, List, ℕ, ◌+◌, ◌<◌, length};
ghost use Rattle.running.specs.State.{State};
ghost use Rattle.running.specs.Moves.{environment_step};
ghost use Rattle.products.specs.Held.{Holds};
ghost use Rattle.transitions.specs.Steps.{Answers};

use crate::{MoveRefusal, Moved};
use memory::put;
use products::Sizes;
use script::Record;

/// 05: the environment makes a known name of type `t`.
pub fn environment_name(
    t: usize,
    sizes: Sizes,
    types: &mut [u32],
    known: &mut [bool],
) -> Result<Moved, MoveRefusal>
    requires types { length types.old ≡ 1024 }
    requires known { length known.old ≡ 1024 }
    requires fits { t < 4294967296 }
    ensures { (forms threads cells : List ℕ) (state : State) (turns : ℕ) → length threads ≡ 128
        → Holds forms sizes turns threads types.old known.old cells state
        → Answers forms (turns + 1) threads types.new known.new cells state (environment_step state t) sizes result }
{
    let name = sizes.names;
    if 1024 <= name {
        return Err(MoveRefusal::NoRoom);
    }
    put(types, name, t as u32);
    put(known, name, true);
    Ok(Moved {
        sizes: Sizes {
            names: name + 1,
            ..sizes
        },
        line: Record {
            number: 0,
            label: 5,
            channel: 65535,
            name,
            actor: 255,
            receiver: 255,
        },
    })
}
