// The five moves: each asks 30 to 35 in order, and where none fails changes the state and tells its record.
ghost use Rattle.std.specs.Prelude.{◌≡◌, length};
ghost use Rattle.running.specs.Moves.{step as step_of};
ghost use Rattle.script.specs.Told.{move_of};
ghost use Rattle.continuations.specs.Places.{Tables};
ghost use Rattle.transitions.specs.Steps.{TypeFits, Stepped};

use crate::communication::communicate;
use crate::environment::environment_name;
use crate::receiving::receive_in;
use crate::sending::send_out;
use crate::unfoldings::unfold_replication;
use crate::{MoveRefusal, Moved};
use products::Sizes;
use script::Move;

/// A move on the state that the last one left.
#[tactic(auto, using(crate::proofs::StepSteps::step_steps))]
pub fn step(
    forms: &[usize],
    m: Move,
    sizes: Sizes,
    threads: &mut [usize],
    made: &mut [usize],
    types: &mut [u32],
    known: &mut [bool],
    cells: &mut [u32],
) -> Result<Moved, MoveRefusal>
    requires tables { Tables sizes threads.old made.old types.old cells.old }
    requires known { length known.old ≡ 1024 }
    requires fits { TypeFits m }
    ensures { Stepped forms.now sizes
        threads.old types.old known.old cells.old
        threads.new types.new known.new cells.new (λ state. step_of state (move_of m)) result }
{
    match m {
        Move::Unfold(i) => unfold_replication(forms, i, sizes, threads, made, types, cells),
        Move::SendOut(i) => send_out(forms, i, sizes, threads, made, types, known, cells),
        Move::ReceiveIn(receipt) => receive_in(
            forms, receipt, sizes, threads, made, types, known, cells,
        ),
        Move::Communicate(pair) => communicate(forms, pair, sizes, threads, made, types, cells),
        Move::EnvironmentName(t) => environment_name(t, sizes, types, known),
    }
}
