// Questions 20 to 22 of a sheet that passes questions 1 to 18, and its run.
ghost use Rattle.std.specs.Prelude.{◌≡◌, ◌≤◌, length};
ghost use Rattle.running.specs.State.{State};
ghost use Rattle.products.specs.Held.{Holds};
ghost use Rattle.products.specs.Starts.{Blank};
ghost use Rattle.execution.specs.Begins.{Reads, start_of, played_script, played_from, Comes, Standing, Enough, Lent};

use crate::runs::run;
use crate::{Course, Point};
use products::Sizes;
use products::start::start;
use reading::Question;
use script::moves::count_moves;

// Questions 21 and 22, and the run, from the start in the tables on.
#[tactic(auto, using(crate::proofs::PlaySteps::script_steps))]
fn play_script(
    forms: &[usize],
    script: &[u8],
    sizes: Sizes,
    log: &mut [u8],
    threads: &mut [usize],
    made: &mut [usize],
    types: &mut [u32],
    known: &mut [bool],
    cells: &mut [u32],
) -> Result<usize, Question>
    requires standing { Standing forms.now sizes threads.old types.old known.old cells.old }
    requires tables { Lent threads.old made.old types.old known.old cells.old }
    requires enough { Enough script.now (length cells.old) }
    ensures { (state : State)
        → Holds forms.now sizes 1 threads.old types.old known.old cells.old state
        → Comes (played_script state script.now log.old) log.new result }
{
    let counted = count_moves(script);
    let Ok(count) = counted else {
        return counted;
    };
    if log.len() / 8 < count {
        return Err(Question::Log);
    }
    let begin = Point {
        at: 0,
        done: 0,
        sizes,
    };
    let course = Course {
        forms,
        script,
        count,
    };
    run(course, begin, log, threads, made, types, known, cells);
    Ok(count)
}

// Question 20, then 21 and 22, and the run, with blank tables.
fn play_with(
    s: &[u8],
    script: &[u8],
    log: &mut [u8],
    forms: &mut [usize],
    threads: &mut [usize],
    made: &mut [usize],
    types: &mut [u32],
    known: &mut [bool],
    cells: &mut [u32],
) -> Result<usize, Question>
    requires reads { Reads s.now }
    requires blank { Blank s.now forms.old threads.old types.old known.old cells.old }
    requires made { length made.old ≡ 128 }
    requires enough { Enough script.now (length cells.old) }
    ensures { Comes (played_from (start_of s.now) script.now log.old) log.new result }
{
    let sizes = start(s, forms, threads, types, known, cells);
    if 64 < sizes.threads {
        return Err(Question::Start);
    }
    if 1024 < sizes.names {
        return Err(Question::Start);
    }
    play_script(
        forms, script, sizes, log, threads, made, types, known, cells,
    )
}

// The same, with new tables.
fn play_in<const CELLS: usize>(
    s: &[u8],
    script: &[u8],
    log: &mut [u8],
    forms: &mut [usize],
) -> Result<usize, Question>
    requires reads { Reads s.now }
    requires forms { length s.now ≤ length forms.old }
    requires cells { (1029 ≤ CELLS) × (CELLS ≤ 2304) }
    requires enough { Enough script.now CELLS }
    ensures { Comes (played_from (start_of s.now) script.now log.old) log.new result }
{
    let mut threads = [0usize; 128];
    let mut made = [0usize; 128];
    let mut types = [0u32; 1024];
    let mut known = [false; 1024];
    let mut cells = [0u32; CELLS];
    play_with(
        s,
        script,
        log,
        forms,
        &mut threads,
        &mut made,
        &mut types,
        &mut known,
        &mut cells,
    )
}

// The same, with a new table of `FORMS` forms. A script of at most 240 bytes has few moves, and so a smaller table of cells to clear:
// to clear them all takes a quarter of a short run.
fn play_over<const FORMS: usize>(s: &[u8], script: &[u8], log: &mut [u8]) -> Result<usize, Question>
    requires reads { Reads s.now }
    requires forms { (length s.now ≤ FORMS) × (FORMS ≤ 4096) }
    ensures { Comes (played_from (start_of s.now) script.now log.old) log.new result }
{
    let mut forms = [0usize; FORMS];
    if script.len() <= 240 {
        return play_in::<1280>(s, script, log, &mut forms);
    }
    play_in::<2304>(s, script, log, &mut forms)
}

/// Questions 20 to 22, and the run, of a sheet that passes questions 1 to 6. A sheet of at most 64 bytes has a small table of forms to
/// clear, one of at most 256 a larger one.
pub fn play_accepted(s: &[u8], script: &[u8], log: &mut [u8]) -> Result<usize, Question>
    requires { Reads s.now }
    ensures { Comes (played_from (start_of s.now) script.now log.old) log.new result }
{
    if s.len() <= 64 {
        return play_over::<64>(s, script, log);
    }
    if s.len() <= 256 {
        return play_over::<256>(s, script, log);
    }
    play_over::<4096>(s, script, log)
}
