// What an act needs where its channel's name may be out of scope, and the first of questions 7 to 10 that an act fails.
ghost use Rattle.std.specs.Prelude.{◌≡◌, take};
ghost use Rattle.std.proofs.Math.ListN.{get_elem?};
ghost use Rattle.reading.specs.Questions.{number_of};
ghost use Rattle.reading.specs.Told.{path_of, numbered, failed_below};
ghost use Rattle.inference.specs.Needs.{need_on};
ghost use Rattle.inference.specs.Walks.{Acted, Noted, fault};
ghost use Rattle.inference.specs.Told.{known};

use crate::rows::charge_need;
use crate::{Context, Walker};
use needs::{Need, need_of};
use reading::types::shape_of;
use reading::{Path, Question, Shape};

/// What a send or a receive needs where the channel's name may be out of scope.
#[tactic(auto, using(crate::proofs::NeedSteps::need_steps))]
pub fn need_on(sends: bool, channel: Option<usize>) -> Need
    ensures { result ≡ need_on sends (known channel) }
{
    match channel {
        Some(t) => need_of(sends, t),
        None => Need::Nothing,
    }
}

// Questions 8 to 10 of an act whose names are in scope.
#[tactic(auto, using(crate::proofs::NeedSteps::need_steps))]
fn typed_fault(channel: usize, object: usize, path: Path) -> Option<Question>
    ensures { numbered result ≡ failed_below 11 (fault (known (Some channel)) (known (Some object)) (path_of path)) }
{
    match shape_of(channel) {
        Shape::Plain(_) => Some(Question::Channel),
        Shape::Channel { group, carried } => {
            if carried != object {
                Some(Question::Carried)
            } else if !path.has(group) {
                Some(Question::Located)
            } else {
                None
            }
        }
    }
}

/// The first of questions 7 to 10 that an act fails.
#[tactic(auto, using(crate::proofs::NeedSteps::need_steps))]
pub fn fault_of(channel: Option<usize>, object: Option<usize>, path: Path) -> Option<Question>
    ensures { numbered result ≡ failed_below 11 (fault (known channel) (known object) (path_of path)) }
{
    let Some(channel) = channel else {
        return Some(Question::Scope);
    };
    let Some(object) = object else {
        return Some(Question::Scope);
    };
    typed_fault(channel, object, path)
}

/// The type of a name among `names` in scope, by level, if there is one.
#[tactic(auto, using(crate::proofs::RowSteps::row_steps))]
pub fn type_of(scope: &[usize], names: usize, name: usize) -> Option<usize>
    ensures { known result ≡ get_elem? (take names scope.now) name }
{
    if name < names && name < scope.len() {
        Some(scope[name])
    } else {
        None
    }
}

impl Walker<'_> {
    /// The type of a name, if the name is in scope.
    pub fn type_of(&self, names: usize, name: usize) -> Option<usize>
        ensures { known result ≡ get_elem? (take names self.now.scope) name }
    {
        type_of(&self.scope, names, name)
    }

    // Notes a question that fails: the first is kept.
    fn fail(&mut self, question: Question)
        ensures { Noted (number_of question) self.old self.new }
    {
        match self.fault {
            Some(first) => {
                if question.number() < first.number() {
                    self.fault = Some(question);
                }
            }
            None => self.fault = Some(question),
        }
    }

    /// Types an act and counts what it needs.
    pub fn act(
        &mut self,
        sends: bool,
        channel: Option<usize>,
        object: Option<usize>,
        context: Context,
    )
        ensures { Acted sends (known channel) (known object) context self.old self.new }
    {
        let need = need_on(sends, channel);
        charge_need(self.table, context.component, need, context.repeated);
        if let Some(question) = fault_of(channel, object, context.path) {
            self.fail(question);
        }
    }
}
