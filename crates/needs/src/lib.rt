// What an act needs: the permission for data of a base type, or nothing, by what its channel carries (document 01, "What an act
// needs"; source document 000, rules (In) and (Out)).
#![tactic(auto)]

ghost use Rattle.std.specs.Prelude.{◌≡◌};
ghost use Rattle.needs.specs.Needs.{need, case_need, carries};
ghost use Rattle.reading.specs.Types.{shape};

use reading::Shape;
use reading::types::shape_of;

/// The permission that an act needs, for data of a base type (document 01: kind).
// `Nothing` stays a case, and this no `Option`: the definition `need` gives it as one of its six.
#[derive(Clone, Copy, Debug, PartialEq, Eq)]
pub enum Need {
    Nothing,
    Read(usize),
    Write(usize),
    Access(usize),
    Disclose { kind: usize, group: usize },
}

// What a channel carries: plain data, a channel of plain data, or anything deeper.
#[derive(Clone, Copy, Debug, PartialEq, Eq)]
enum Carried {
    Data(usize),
    Link(usize),
    Deeper,
}

// The three that T of a channel G[T] can be.
#[tactic(auto, using(crate::proofs::NeedSteps::need_steps))]
fn carried_by(t: usize) -> Carried
    ensures { result ≡ carries (shape t) }
{
    match shape_of(t) {
        Shape::Plain(kind) => Carried::Data(kind),
        Shape::Channel { carried, .. } => match shape_of(carried) {
            Shape::Plain(kind) => Carried::Link(kind),
            Shape::Channel { .. } => Carried::Deeper,
        },
    }
}

// The six cases of an act on a channel of a group that carries T: (i), (ii), (iii) of rule (In) for a receive, then those of
// rule (Out) for a send.
#[tactic(auto, using(crate::proofs::NeedSteps::need_steps))]
fn case_need(sends: bool, group: usize, t: usize) -> Need
    ensures { result ≡ case_need sends group (carries (shape t)) }
{
    match (sends, carried_by(t)) {
        // (In)
        (false, Carried::Data(kind)) => Need::Read(kind),
        (false, Carried::Link(kind)) => Need::Access(kind),
        (false, Carried::Deeper) => Need::Nothing,
        // (Out)
        (true, Carried::Data(kind)) => Need::Write(kind),
        (true, Carried::Link(kind)) => Need::Disclose { kind, group },
        (true, Carried::Deeper) => Need::Nothing,
    }
}

/// What a send or a receive on a channel of type t needs.
#[tactic(auto, using(crate::proofs::NeedSteps::need_steps))]
pub fn need_of(sends: bool, t: usize) -> Need
    ensures { result ≡ need sends t }
{
    match shape_of(t) {
        Shape::Plain(_) => Need::Nothing,
        Shape::Channel { group, carried } => case_need(sends, group, carried),
    }
}
