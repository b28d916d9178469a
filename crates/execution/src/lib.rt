// The service `play`: questions 1 to 18, 20, 21 and 22, then a run of an accepted sheet under a script of moves, logged.
#![tactic(auto)]

pub mod opening;
pub mod runs;

ghost use Rattle.execution.specs.Told.{Played};

use opening::play_accepted;
use products::Sizes;
use reading::Question;
use service::judging::first_failed;

/// Where a run stands between two moves: the place of the next in the script, how many are made, and the sizes of the tables.
#[derive(Clone, Copy)]
pub struct Point {
    pub at: usize,
    pub done: usize,
    pub sizes: Sizes,
}

/// What a run goes by: the sheet's forms decoded, the script, and how many moves it has.
#[derive(Clone, Copy)]
pub struct Course<'a> {
    pub forms: &'a [usize],
    pub script: &'a [u8],
    pub count: usize,
}

/// Plays a script on a sheet that its charter accepts: the number of moves, or the first question that fails. The answer and the
/// log's final bytes are those of the definition `played`, for any bytes in all four slices.
#[tactic(auto, using(crate::proofs::PlaySteps::play_steps))]
pub fn play(sheet: &[u8], charter: &[u8], script: &[u8], log: &mut [u8]) -> Result<usize, Question>
    ensures { Played sheet.now charter.now script.now log.old log.new result }
{
    if let Some(question) = first_failed(sheet, charter) {
        return Err(question);
    }
    play_accepted(sheet, script, log)
}
