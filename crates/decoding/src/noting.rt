// The walk that decodes a sheet into the table. The sheet was read before, so that no limit is asked again. The permitted nesting
// falls at each form.
ghost use Rattle.std.specs.Prelude.{◌≡◌, []};
ghost use Rattle.reading.specs.Read.{got};
ghost use Rattle.reading.specs.Forms.{system_at};
ghost use Rattle.decoding.specs.Notes.{ProcessNoted, SystemNoted, SystemFormNoted};

use crate::Item;
use crate::words::number;
use memory::put;
use reading::bytes::byte_in;
use reading::types::type_at;
use reading::{Dialect, Form, Path, Place, Source, Spot};

/// Notes the process at a place, form by form, and gives the place after it. The first part of a parallel form (1) is a call; a new
/// name (3), an input (5), an output (6) and a repeat (7) are a turn each, and so is the second part; nothing (0) ends it.
// The count falls within a turn, where the call takes what is left of it: so it is a loop like the reader's, which no `for` is.
#[tactic(auto, using(crate::proofs::NoteSteps::note_steps, crate::proofs::NoteSteps::output_on))]
pub fn note_process(s: &[u8], from: usize, levels: usize, forms: &mut [usize]) -> usize
    ensures { ProcessNoted s.now from levels forms.old forms.new result }
{
    let mut at = from;
    let mut nest = levels;
    while 0 < nest {
        if s.len() <= at {
            return at;
        }
        nest -= 1;
        match s[at] {
            0 => {
                put(forms, at, 0);
                return at + 1;
            }
            1 => {
                let first = at + 1;
                let second = note_process(s, first, nest, forms);
                put(forms, at, number(1, 0, second, first));
                at = second;
            }
            3 => {
                let read = type_at(Dialect::Current, s, at + 1);
                let Ok(t) = read else {
                    return at;
                };
                put(forms, at, number(3, 0, t.value, t.next));
                at = t.next;
            }
            5 => {
                let read = type_at(Dialect::Current, s, at + 2);
                let Ok(t) = read else {
                    return at;
                };
                put(forms, at, number(5, byte_in(s, at + 1), t.value, t.next));
                at = t.next;
            }
            6 => {
                put(
                    forms,
                    at,
                    number(6, byte_in(s, at + 1), byte_in(s, at + 2), at + 3),
                );
                at += 3;
            }
            7 => {
                put(forms, at, number(7, 0, 0, at + 1));
                at += 1;
            }
            _ => {
                return at;
            }
        }
    }
    at
}

/// Notes the system at a place, and gives the place after it.
#[cycle(system_walk)]
#[tactic(auto, using(crate::proofs::NoteSteps::system_steps))]
pub fn note_system(s: &[u8], at: usize, nest: usize, forms: &mut [usize]) -> usize
    ensures { SystemNoted s.now at nest forms.old forms.new result }
{
    if nest == 0 {
        return at;
    }
    let source = Source {
        dialect: Dialect::Current,
        bytes: s,
    };
    let read = source.system_at(
        Spot {
            at,
            nest: 1,
            names: 0,
        },
        Path::empty(),
        0,
    );
    let Ok(place) = read else {
        return at;
    };
    note_form(s, at, nest - 1, place, forms)
}

// The same, where a form stands at the place; its parts may be nested `nest` forms deep.
#[cycle(system_walk)]
#[tactic(auto, using(crate::proofs::NoteSteps::system_steps))]
fn note_form(s: &[u8], at: usize, nest: usize, place: Place, forms: &mut [usize]) -> usize
    requires { system_at s.now at 1 0 [] 0 ≡ got place.form place.next }
    ensures { SystemFormNoted s.now at nest place forms.old forms.new result }
{
    let next = place.next;
    let item = Item {
        form: place.form,
        next,
        second: 0,
    };
    match place.form {
        Form::Nil => {
            put(forms, at, 0);
            next
        }
        Form::Par => {
            let second = note_system(s, next, nest, forms);
            put(forms, at, Item { second, ..item }.pack());
            note_system(s, second, nest, forms)
        }
        Form::Group(_) | Form::New(_) => {
            put(forms, at, item.pack());
            note_system(s, next, nest, forms)
        }
        Form::Component(_) => {
            put(forms, at, item.pack());
            note_process(s, next, nest, forms)
        }
        Form::Input(_) | Form::Output(_) | Form::Replicate => at,
    }
}
