// A run under a script: a move a turn, and its record of eight bytes.
ghost use Rattle.std.specs.Prelude.{◌≡◌, List, ℕ, ◌+◌, ◌<◌, ◌≤◌, length};
ghost use Rattle.execution.specs.Begins.{ran_over, Lent};
ghost use Rattle.execution.specs.Runs.{Going, Ongoing, Turned};

use crate::{Course, Point};
use script::moves::move_at;
use script::records::write_record;
use transitions::moves::step;
use transitions::outcomes::refused;

// Makes the next move and writes its record.
#[tactic(auto, using(crate::proofs::RunSteps::turn_steps))]
fn turn(
    course: Course<'_>,
    p: Point,
    log: &mut [u8],
    threads: &mut [usize],
    made: &mut [usize],
    types: &mut [u32],
    known: &mut [bool],
    cells: &mut [u32],
) -> Point
    requires ongoing { Ongoing course.forms.now course.script.now course.count p log.old threads.old types.old known.old cells.old }
    requires tables { Lent threads.old made.old types.old known.old cells.old }
    requires left { p.done < course.count }
    requires enough { course.count + 1029 ≤ length cells.old }
    ensures { (run : List ℕ)
        → Going course.entry.forms.now course.entry.script.now run course.entry.count p log.old
        threads.old types.old known.old cells.old
        → Turned course.entry.forms.now course.entry.script.now run course.entry.count p
        log.old log.new threads.new types.new known.new cells.new result }
{
    let read = move_at(course.script, p.at);
    let Ok(found) = read else {
        return p;
    };
    let at = p.done * 8;
    let next = Point {
        at: found.next,
        done: p.done + 1,
        sizes: p.sizes,
    };
    // Each answer is written as it comes. Made into one value first (`logged`), it goes by way of memory: a quarter more instructions where
    // all moves are refused by 30.
    match step(
        course.forms,
        found.step,
        p.sizes,
        threads,
        made,
        types,
        known,
        cells,
    ) {
        Ok(moved) => {
            write_record(log, at, moved.line);
            Point {
                sizes: moved.sizes,
                ..next
            }
        }
        Err(refusal) => {
            let kept = refused(refusal.number(), p.sizes);
            write_record(log, at, kept.line);
            Point {
                sizes: kept.sizes,
                ..next
            }
        }
    }
}

/// Makes the moves that are left, and writes their records.
#[tactic(auto, using(crate::proofs::RunSteps::run_steps))]
pub fn run(
    course: Course<'_>,
    begin: Point,
    log: &mut [u8],
    threads: &mut [usize],
    made: &mut [usize],
    types: &mut [u32],
    known: &mut [bool],
    cells: &mut [u32],
)
    requires ongoing { Ongoing course.forms.now course.script.now course.count begin log.old threads.old types.old known.old cells.old }
    requires tables { Lent threads.old made.old types.old known.old cells.old }
    requires enough { course.count + 1029 ≤ length cells.old }
    ensures { (run : List ℕ)
        → Going course.entry.forms.now course.entry.script.now run course.entry.count begin log.old
        threads.old types.old known.old cells.old
        → log.new ≡ ran_over run log.old }
{
    let mut p = begin;
    while p.done < course.count {
        p = turn(course, p, log, threads, made, types, known, cells);
    }
}
