// A form as a number, each field in digits of its own. The last digit is the form's code; a parallel form has the place of its
// second part where others have an object, a component its group, and its purpose where others have a channel.
ghost use Rattle.std.specs.Prelude.{◌≡◌};
ghost use Rattle.decoding.specs.Words.{digits, packed, form_of, unpacked, item_at};

use crate::Item;
use reading::{Act, Form, OwnFields};

/// A code with its fields and the place of a part, as a number.
#[tactic(auto, unfolding(crate::specs::Words::digits))]
pub fn number(code: usize, channel: usize, object: usize, next: usize) -> usize
    ensures { result ≡ digits code channel object next }
{
    let fields = object % 536870912 * 256 + channel % 256;
    (fields * 8192 + next % 8192) * 8 + code % 8
}

// The form of a code and its fields.
#[tactic(auto, using(crate::proofs::WordSteps::word_steps))]
fn form_of(code: usize, channel: usize, object: usize) -> Form
    ensures { result ≡ form_of code channel object }
{
    match code {
        1 => Form::Par,
        2 => Form::Group(object),
        3 => Form::New(object),
        4 => Form::Component(OwnFields {
            group: object,
            purpose: channel,
        }),
        5 => Form::Input(Act { channel, object }),
        6 => Form::Output(Act { channel, object }),
        7 => Form::Replicate,
        _ => Form::Nil,
    }
}

impl Item {
    /// The form, with the places of its parts, as a number.
    #[tactic(auto, using(crate::proofs::WordSteps::word_steps))]
    pub fn pack(self) -> usize
        ensures { result ≡ packed self }
    {
        let next = self.next;
        match self.form {
            Form::Nil => number(0, 0, 0, next),
            Form::Par => number(1, 0, self.second, next),
            Form::Group(g) => number(2, 0, g, next),
            Form::New(t) => number(3, 0, t, next),
            Form::Component(own) => number(4, own.purpose, own.group, next),
            Form::Input(act) => number(5, act.channel, act.object, next),
            Form::Output(act) => number(6, act.channel, act.object, next),
            Form::Replicate => number(7, 0, 0, next),
        }
    }

    // The form that a number stands for.
    #[tactic(auto, using(crate::proofs::WordSteps::word_steps))]
    fn unpack(word: usize) -> Item
        ensures { result ≡ unpacked word }
    {
        let placed = word / 8;
        let fields = placed / 8192;
        let object = fields / 256;
        Item {
            form: form_of(word % 8, fields % 256, object % 536870912),
            next: placed % 8192,
            second: object % 8192,
        }
    }
}

/// What stands at a place of a table; past its end, what the number 0 stands for: a nothing-form.
#[tactic(auto, using(crate::proofs::WordSteps::word_steps))]
pub fn item_at(forms: &[usize], at: usize) -> Item
    ensures { result ≡ item_at forms.now at }
{
    Item::unpack(forms.get(at).copied().unwrap_or(0))
}
