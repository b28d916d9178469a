// The reader of a names file: question 40. It keeps the place at which each name begins.
ghost use Rattle.std.specs.Prelude.{◌≡◌, ◌+◌, ◌*◌, ◌<◌, ◌≤◌, length};
ghost use Rattle.inference.specs.Lists.{any};
ghost use Rattle.naming.specs.Names.{letters_at, name_at, names_at, same, distinct, list_at, read_names};
ghost use Rattle.naming.specs.Told.{ends, after, words_at, names_at_places};

use crate::letters::{letters_at, same_at};
use reading::bytes::byte_in;
use reading::{Question, Refusal};

// A names file that breaks its rules.
fn broken(at: usize) -> Result<usize, Refusal>
    ensures { result ≡ Err (record { question = Question.Names; at = at }) }
{
    Err(Refusal {
        question: Question::Names,
        at,
    })
}

// Reads past the name at a place and the byte 0A that ends it.
#[tactic(auto, using(crate::proofs::NameSteps::name_steps))]
fn name_at(s: &[u8], at: usize) -> Result<usize, Refusal>
    requires { at < 100000 }
    ensures at_value { ends result (letters_at 20 s.now at) ≡ name_at s.now at }
    ensures near { after result ≤ at + 21 }
{
    let len = letters_at(s, at);
    if len == 0 {
        return broken(at);
    }
    if byte_in(s, at + len) == 10 {
        Ok(at + len + 1)
    } else {
        broken(at)
    }
}

// Reads names, as many as there are places, and keeps where each begins.
#[tactic(auto, using(crate::proofs::NameSteps::name_steps))]
fn names_at(s: &[u8], at: usize, places: &mut [u16]) -> Result<usize, Refusal>
    requires { (at < 30000) × (length places.old ≤ 64) }
    ensures places_after { ends result (words_at s.now places.new) ≡ names_at (length places.old) s.now at }
    ensures near { after result ≤ at + 21 * length places.old }
{
    let mut next = at;
    for place in places.iter_mut() {
        *place = next as u16;
        let read = name_at(s, next);
        let Ok(end) = read else {
            return read;
        };
        next = end;
    }
    Ok(next)
}

// Is the name at a place one of those that begin at some places?
fn among(s: &[u8], at: usize, places: &[u16]) -> bool
    requires { at < 100000 }
    ensures { result ≡ any (same (letters_at 20 s.now at)) (words_at s.now places.now) }
{
    places.iter().any(|place| same_at(s, at, *place as usize))
}

// Are the names that begin at some places distinct?
#[tactic(auto, using(crate::proofs::NameSteps::name_steps))]
fn all_distinct(s: &[u8], places: &[u16]) -> bool
    ensures { result ≡ distinct (words_at s.now places.now) }
{
    for (i, place) in places.iter().enumerate() {
        if among(s, *place as usize, &places[i + 1..]) {
            return false;
        }
    }
    true
}

// Reads a list of distinct names, as many as there are places.
#[tactic(auto, using(crate::proofs::NameSteps::name_steps))]
fn list_at(s: &[u8], at: usize, places: &mut [u16]) -> Result<usize, Refusal>
    requires { (at < 30000) × (length places.old ≤ 64) }
    ensures places_after { ends result (words_at s.now places.new) ≡ list_at (length places.old) s.now at }
    ensures near { after result ≤ at + 21 * length places.old }
{
    let read = names_at(s, at, places);
    let Ok(_) = read else {
        return read;
    };
    if all_distinct(s, places) {
        read
    } else {
        broken(at)
    }
}

/// Question 40 of any bytes, and the places at which the names of the 64 groups and of the 16 kinds begin.
#[tactic(auto, using(crate::proofs::NameSteps::name_steps))]
pub fn read_names(s: &[u8], groups: &mut [u16], kinds: &mut [u16]) -> Result<usize, Refusal>
    requires { (length groups.old ≡ 64) × (length kinds.old ≡ 16) }
    ensures { ends result (names_at_places s.now groups.new kinds.new) ≡ read_names s.now }
{
    let first = list_at(s, 0, groups);
    let Ok(next) = first else {
        return first;
    };
    let second = list_at(s, next, kinds);
    let Ok(end) = second else {
        return second;
    };
    if end == s.len() { second } else { broken(end) }
}
