// The walk over the forms of a stored sheet: from one to the next, by its code alone.
ghost use Rattle.std.specs.Prelude.{◌≡◌, ◌+◌, ◌<◌, ◌≤◌, not, length, get_or};
ghost use Rattle.encoding.specs.Encoding.{purpose_bytes, all_zero};
ghost use Rattle.encoding.specs.Copying.{form_len, head_len, next_form, stated_at, system_start, stated_in};

use reading::Dialect;
use reading::bytes::byte_in;

/// The bytes of a stored sheet, at most 4,096, and the dialect that they are in.
#[derive(Clone, Copy)]
pub struct StoredSheet<'a> {
    pub dialect: Dialect,
    pub bytes: &'a [u8],
    ghost short: { length bytes.now ≤ 4096 },
}

impl<'a> StoredSheet<'a> {
    /// The byte at a place, 0 past the end.
    pub fn byte(&self, at: usize) -> usize
        ensures value { result ≡ get_or self.now.bytes.now at 0 }
        ensures few { result < 256 }
    {
        byte_in(self.bytes, at)
    }

    // How many bytes a form has by its code, up to a component's purpose.
    #[tactic(auto, using(crate::proofs::WalkSteps::lengths))]
    fn form_len(&self, at: usize) -> usize
        requires { at < 4294967296 }
        ensures { result ≡ form_len (get_or self.now.bytes.now at 0) (get_or self.now.bytes.now (at + 1) 0) (get_or self.now.bytes.now (at + 2) 0) }
    {
        // Kept: a rule of the project is that a code byte is matched as a number.
        match self.byte(at) {
            2 => 2,
            3 => self.byte(at + 1) + 3,
            4 => 2,
            5 => self.byte(at + 2) + 4,
            6 => 3,
            _ => 1,
        }
    }

    /// How many bytes a form has, up to a component's purpose, and no more than there are.
    #[tactic(auto, using(crate::proofs::WalkSteps::walk_arms))]
    pub fn head_len(&self, at: usize) -> usize
        requires { at < length self.now.bytes.now }
        ensures value { result ≡ head_len self.now.bytes.now at }
        ensures some { 0 < result }
        ensures within { at + result ≤ length self.now.bytes.now }
    {
        self.form_len(at).min(self.bytes.len() - at)
    }

    /// The place of the next form.
    #[tactic(auto, using(crate::proofs::WalkSteps::next_arms))]
    pub fn next_form(&self, at: usize) -> usize
        requires { at < length self.now.bytes.now }
        ensures value { result ≡ next_form self.now.dialect self.now.bytes.now at }
        ensures later { at < result }
    {
        let purpose = at + self.head_len(at);
        if self.byte(at) == 4 {
            purpose + purpose_len(self.dialect)
        } else {
            purpose
        }
    }

    // Does the form at a place, if it is a component, state a purpose other than 0?
    #[tactic(auto, using(crate::proofs::WalkSteps::states_arms))]
    fn states_other(&self, at: usize) -> bool
        requires { at < length self.now.bytes.now }
        ensures { result ≡ not (all_zero (stated_at self.now.bytes.now at)) }
    {
        self.byte(at) == 4 && self.byte(at + self.head_len(at)) != 0
    }

    /// Are the purposes that a sheet's components state all 0?
    #[tactic(auto, using(crate::proofs::WalkSteps::ask_steps))]
    pub fn all_zero(&self) -> bool
        ensures { result ≡ all_zero (stated_in self.now.dialect self.now.bytes.now) }
    {
        let mut at = system_start(self.bytes);
        // Kept: no count to go over, since each form's bytes tell where the next begins.
        while at < self.bytes.len() {
            if self.states_other(at) {
                return false;
            }
            at = self.next_form(at);
        }
        true
    }
}

/// Where the system of a sheet begins: past the types of the free names.
#[tactic(auto, using(crate::proofs::WalkSteps::start_steps))]
pub fn system_start(s: &[u8]) -> usize
    ensures { result ≡ system_start s.now }
{
    let mut at = 1;
    for _passed in 0..byte_in(s, 0) {
        at += byte_in(s, at) + 2;
    }
    at
}

/// How many bytes a purpose has in a dialect.
#[tactic(auto, using(crate::proofs::WalkSteps::purpose_arms))]
pub fn purpose_len(dialect: Dialect) -> usize
    ensures value { result ≡ length (purpose_bytes dialect 0) }
    ensures few { result ≤ 1 }
{
    if 0 < dialect.purposes() { 1 } else { 0 }
}
