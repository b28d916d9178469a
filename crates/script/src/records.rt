// Writes a record of eight bytes into the lent log.
ghost use Rattle.std.specs.Prelude.{◌≡◌, ◌++◌, ◌+◌, ◌<◌, ◌≤◌, ◌%◌, length, set, take, drop};
ghost use Rattle.script.specs.Told.{bytes_of};

use crate::Record;

// Stores the low byte of a number. (Kept: `as` alone is to lose nothing, and a record takes the low bytes of any number.)
fn store(log: &mut [u8], at: usize, value: usize)
    requires { at < length log.old }
    ensures { log.new ≡ set log.old at (value % 256) }
{
    log[at] = (value % 256) as u8;
}

/// Writes a record from a place on: its number and label, its channel, its name, its two components.
#[tactic(auto, using(crate::proofs::RecordSteps::record_steps))]
pub fn write_record(log: &mut [u8], at: usize, r: Record)
    requires { at + 8 ≤ length log.old }
    ensures { log.new ≡ take at log.old ++ (bytes_of r ++ drop (at + 8) log.old) }
{
    // Byte by byte: put together as one slice, a record takes a sixth more instructions of a refused move.
    store(log, at, r.number);
    store(log, at + 1, r.label);
    store(log, at + 2, r.channel);
    store(log, at + 3, r.channel / 256);
    store(log, at + 4, r.name);
    store(log, at + 5, r.name / 256);
    store(log, at + 6, r.actor);
    store(log, at + 7, r.receiver);
}
