// The letters of a names file: where a name ends, and whether two names are the same.
ghost use Rattle.std.specs.Prelude.{◌≡◌, ◌≤◌, ◌<◌, length};
ghost use Rattle.naming.specs.Names.{is_letter, letters_at, same};

use reading::bytes::byte_in;

/// How many letters a name has at most.
const LONGEST: usize = 20;

/// Is a byte a letter, A-Z or a-z?
#[tactic(auto, unfolding(crate::specs::Names::is_letter))]
pub fn is_letter(b: usize) -> bool
    ensures { result ≡ is_letter b }
{
    (65 <= b && b <= 90) || (97 <= b && b <= 122)
}

/// How many letters stand from a place on, at most 20.
#[tactic(auto, using(crate::proofs::LetterSteps::letter_steps))]
pub fn letters_at(s: &[u8], at: usize) -> usize
    requires { at < 100000 }
    ensures value { result ≡ length (letters_at 20 s.now at) }
    ensures few { result ≤ 20 }
{
    for n in 0..LONGEST {
        if !is_letter(byte_in(s, at + n)) {
            return n;
        }
    }
    LONGEST
}

/// The letters that stand from a place on, at most 20.
#[tactic(auto, using(crate::proofs::LetterSteps::letter_steps))]
pub fn word_at(s: &[u8], at: usize) -> &[u8]
    requires { at < 100000 }
    ensures value { result.now ≡ letters_at 20 s.now at }
    ensures few { length result.now ≤ 20 }
{
    let len = letters_at(s, at);
    if len == 0 {
        return &[];
    }
    &s[at..at + len]
}

/// Do the same letters stand from two places on?
#[tactic(auto, using(crate::proofs::LetterSteps::letter_steps))]
pub fn same_at(s: &[u8], a: usize, b: usize) -> bool
    requires { (a < 100000) × (b < 100000) }
    ensures { result ≡ same (letters_at 20 s.now a) (letters_at 20 s.now b) }
{
    for i in 0..LONGEST {
        let x = byte_in(s, a + i);
        let y = byte_in(s, b + i);
        if !is_letter(x) {
            return !is_letter(y);
        }
        if x != y {
            return false;
        }
    }
    true
}
