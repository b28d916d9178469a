// Reads a script (question 21 of document 01): the move that stands at a place, and how many moves there are to the end.
ghost use Rattle.std.specs.Prelude.{◌≡◌, cond, ◌+◌, ◌-◌, ◌<◌, ◌≤◌, leb, length, IfSome, IfOk};
ghost use Rattle.running.specs.Script.{move_at, read_script};
ghost use Rattle.script.specs.Fields.{unfold_at, send_at, receipt_at, communication_at, environment_name_at};
ghost use Rattle.script.specs.Told.{move_read, Spans, moves_in};

use crate::{Communication, Move, MovePlace, Receipt};
use policy::read::two_bytes;
use reading::bytes::byte_at;
use reading::types::type_at;
use reading::{Dialect, Question, Refusal};

/// The most moves that a script may have.
pub const MAX_MOVES: usize = 1024;

// An unfolding: the thread.
#[tactic(auto, using(crate::proofs::MoveSteps::field_steps), unfolding(crate::specs::Fields::unfold_at, crate::specs::Told::move_of))]
fn unfold_at(s: &[u8], at: usize) -> Result<MovePlace, Refusal>
    ensures { move_read result ≡ unfold_at s.now at }
{
    let read = byte_at(s, at);
    let Ok(thread) = read else {
        return Err(read.unwrap_err());
    };
    Ok(MovePlace {
        step: Move::Unfold(thread.value),
        next: thread.next,
    })
}

// A send to the environment: the thread. It differs from an unfolding in the variant made: to take a variant as a parameter, a
// function value, is no plainer.
#[tactic(auto, using(crate::proofs::MoveSteps::field_steps), unfolding(crate::specs::Fields::send_at, crate::specs::Told::move_of))]
fn send_at(s: &[u8], at: usize) -> Result<MovePlace, Refusal>
    ensures { move_read result ≡ send_at s.now at }
{
    let read = byte_at(s, at);
    let Ok(thread) = read else {
        return Err(read.unwrap_err());
    };
    Ok(MovePlace {
        step: Move::SendOut(thread.value),
        next: thread.next,
    })
}

// A receive from the environment: the thread, then the name.
#[tactic(auto, using(crate::proofs::MoveSteps::field_steps), unfolding(crate::specs::Fields::receipt_at, crate::specs::Told::move_of))]
fn receipt_at(s: &[u8], at: usize) -> Result<MovePlace, Refusal>
    ensures { move_read result ≡ receipt_at s.now at }
{
    let first = byte_at(s, at);
    let Ok(thread) = first else {
        return Err(first.unwrap_err());
    };
    let second = two_bytes(s, thread.next);
    let Ok(name) = second else {
        return Err(second.unwrap_err());
    };
    let receipt = Receipt {
        thread: thread.value,
        name: name.value,
    };
    Ok(MovePlace {
        step: Move::ReceiveIn(receipt),
        next: name.next,
    })
}

// A communication: the thread that sends, then the one that receives.
#[tactic(auto, using(crate::proofs::MoveSteps::field_steps), unfolding(crate::specs::Fields::communication_at, crate::specs::Told::move_of))]
fn communication_at(s: &[u8], at: usize) -> Result<MovePlace, Refusal>
    ensures { move_read result ≡ communication_at s.now at }
{
    let first = byte_at(s, at);
    let Ok(sender) = first else {
        return Err(first.unwrap_err());
    };
    let second = byte_at(s, sender.next);
    let Ok(receiver) = second else {
        return Err(second.unwrap_err());
    };
    let communication = Communication {
        sender: sender.value,
        receiver: receiver.value,
    };
    Ok(MovePlace {
        step: Move::Communicate(communication),
        next: receiver.next,
    })
}

// A name that the environment makes: its type.
#[tactic(auto, using(crate::proofs::MoveSteps::field_steps), unfolding(crate::specs::Fields::environment_name_at, crate::specs::Told::move_of))]
fn environment_name_at(s: &[u8], at: usize) -> Result<MovePlace, Refusal>
    ensures { move_read result ≡ environment_name_at s.now at }
{
    let read = type_at(Dialect::Current, s, at);
    let Ok(t) = read else {
        return Err(read.unwrap_err());
    };
    Ok(MovePlace {
        step: Move::EnvironmentName(t.value),
        next: t.next,
    })
}

/// The move that stands at a place: its code, then its fields; the question that fails, where none can be read.
#[inline(always)]
#[tactic(auto, using(crate::proofs::MoveSteps::move_steps), unfolding(running::specs::Script::move_at))]
pub fn move_at(s: &[u8], at: usize) -> Result<MovePlace, Refusal>
    ensures { move_read result ≡ move_at s.now at }
{
    let read = byte_at(s, at);
    let Ok(byte) = read else {
        return Err(read.unwrap_err());
    };
    let next = byte.next;
    match byte.value {
        1 => unfold_at(s, next),
        2 => send_at(s, next),
        3 => receipt_at(s, next),
        4 => communication_at(s, next),
        5 => environment_name_at(s, next),
        _ => Err(Refusal {
            question: Question::Range,
            at: next,
        }),
    }
}

// The bytes of a move that has `len` of them, where so many are left.
fn span(left: usize, len: usize) -> Option<usize>
    ensures { result ≡ cond (leb len left) (Some len) None }
{
    if len <= left { Some(len) } else { None }
}

// The bytes of a move whose field is a type, its code and the type, where a type can be read.
#[tactic(auto, using(crate::proofs::SpanSteps::type_steps))]
fn environment_name_span(s: &[u8], at: usize) -> Option<usize>
    requires { at < length s.now }
    ensures spans { Spans at (environment_name_at s.now (at + 1)) result }
    ensures upper_bound { IfSome result (λ n. n ≤ length s.now - at) }
{
    let read = type_at(Dialect::Current, s, at + 1);
    let Ok(t) = read else {
        return None;
    };
    Some(t.next - at)
}

// How many bytes the move at a place has, where one can be read.
#[tactic(auto, using(crate::proofs::SpanSteps::span_steps))]
fn move_span(s: &[u8], at: usize) -> Option<usize>
    ensures spans { Spans at (move_at s.now at) result }
    ensures upper_bound { IfSome result (λ n. n ≤ length s.now - at) }
{
    if s.len() <= at {
        return None;
    }
    let left = s.len() - at;
    match s[at] {
        1 | 2 => span(left, 2),
        3 => span(left, 4),
        4 => span(left, 3),
        5 => environment_name_span(s, at),
        _ => None,
    }
}

/// Question 21: how many moves the script is made of, at most 1,024, each of a byte at least. The bytes of each move are counted,
/// its fields are not read.
// The place moves on by a length that is read, which is no `for`.
#[inline(always)]
#[tactic(auto, using(crate::proofs::CountSteps::count_steps))]
pub fn count_moves(s: &[u8]) -> Result<usize, Question>
    ensures value { result ≡ moves_in (read_script s.now) }
    ensures upper_bound { IfOk result (λ n. (n ≤ 1024) × (n ≤ length s.now)) }
{
    let mut at: usize = 0;
    let mut count: usize = 0;
    while at != s.len() {
        if MAX_MOVES <= count {
            return Err(Question::Script);
        }
        let Some(len) = move_span(s, at) else {
            return Err(Question::Script);
        };
        at += len;
        count += 1;
    }
    Ok(count)
}
