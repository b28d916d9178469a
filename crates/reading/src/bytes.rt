// Single bytes: the byte at a place, the byte due there (question 2), and its range (question 4).
ghost use Rattle.std.specs.Prelude.{◌≡◌, ◌<◌, get_or};
ghost use Rattle.reading.specs.Read.{byte_at, below};
ghost use Rattle.reading.specs.Told.{number};

use crate::{Number, Question, Refusal};

/// The byte at a place, 0 past the end.
pub fn byte_in(s: &[u8], at: usize) -> usize
    ensures value { result ≡ get_or s.now at 0 }
    ensures upper_bound { result < 256 }
{
    s.get(at).copied().unwrap_or(0) as usize
}

/// Question 2: the byte due at a place.
#[tactic(auto, using(crate::proofs::Tests::tests), unfolding(crate::specs::Read::byte_at))]
pub fn byte_at(s: &[u8], at: usize) -> Result<Number, Refusal>
    ensures { number result ≡ byte_at s.now at }
{
    if at < s.len() {
        Ok(Number {
            value: s[at] as usize,
            next: at + 1,
        })
    } else {
        Err(Question::Byte.at(at))
    }
}

/// Questions 2 and 4: the byte due at a place, which must be below `bound`.
#[tactic(auto, using(crate::proofs::Parts::below_steps))]
pub fn byte_below(s: &[u8], at: usize, bound: usize) -> Result<Number, Refusal>
    ensures { number result ≡ below bound s.now at }
{
    let read = byte_at(s, at);
    let Ok(byte) = read else {
        return read;
    };
    if byte.value < bound {
        Ok(byte)
    } else {
        Err(Question::Range.at(at))
    }
}
