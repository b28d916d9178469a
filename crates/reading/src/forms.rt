// What stands at a place: the form's code byte (questions 2, 4 and 5), then its fields (questions 2, 4 and 6).
ghost use Rattle.std.specs.Prelude.{◌≡◌, ◌&&◌, ltb, length};
ghost use Rattle.reading.specs.Read.{got, refused};
ghost use Rattle.reading.specs.Forms.{
  limited,
  new_form_in,
  input_form_in,
  output_form,
  fresh_group_in,
  group_form_in,
  purpose_in,
  component_form_in,
  process_at_in,
  system_at_in,
};
ghost use Rattle.reading.specs.Told.{number, form as told, path_of};

use crate::bytes::{byte_at, byte_below};
use crate::types::type_at;
use crate::{Act, Form, Number, OwnFields, Path, Place, Question, Refusal, Source, Spot};

// Question 4 fails at a code byte that no form has.
fn no_form(at: usize) -> Result<Place, Refusal>
    ensures { told result ≡ refused 4 at }
{
    Err(Question::Range.at(at))
}

// A form without fields.
#[tactic(auto, using(crate::proofs::FormSteps::form_steps))]
fn bare(form: Form, at: usize, next: usize, room: bool) -> Result<Place, Refusal>
    ensures { told result ≡ limited room at (got form next) }
{
    if room {
        Ok(Place { form, next })
    } else {
        Err(Question::Limits.at(at))
    }
}

impl Spot {
    // Is there room for a form that binds a name?
    fn binds(self) -> bool
        ensures { result ≡ (ltb 0 self.nest && ltb self.names 64) }
    {
        0 < self.nest && self.names < 64
    }

    // Is there room for one more group in the path?
    fn deepens(self, path: Path) -> bool
        ensures { result ≡ (ltb 0 self.nest && ltb (length (path_of path)) 8) }
    {
        0 < self.nest && path.has_room()
    }

    // Is there room for one more group in the path, and for one more component?
    fn places(self, path: Path, components: usize) -> bool
        ensures { result ≡ ((ltb 0 self.nest && ltb (length (path_of path)) 8) && ltb components 32) }
    {
        self.deepens(path) && components < 32
    }
}

impl Source<'_> {
    // A new name: its type.
    #[tactic(auto, using(crate::proofs::FormSteps::form_steps))]
    fn new_form(&self, at: usize, next: usize, room: bool) -> Result<Place, Refusal>
        ensures { told result ≡ limited room at (new_form_in self.now.dialect self.now.bytes.now next) }
    {
        if !room {
            return Err(Question::Limits.at(at));
        }
        let read = type_at(self.dialect, self.bytes, next);
        let Ok(bound) = read else {
            return Err(read.unwrap_err());
        };
        Ok(Place {
            form: Form::New(bound.value),
            next: bound.next,
        })
    }

    // An input: the channel, then the type of the bound name.
    #[tactic(auto, using(crate::proofs::FormSteps::form_steps))]
    fn input_form(&self, at: usize, next: usize, room: bool) -> Result<Place, Refusal>
        ensures { told result ≡ limited room at (input_form_in self.now.dialect self.now.bytes.now next) }
    {
        if !room {
            return Err(Question::Limits.at(at));
        }
        let first = byte_at(self.bytes, next);
        let Ok(channel) = first else {
            return Err(first.unwrap_err());
        };
        let second = type_at(self.dialect, self.bytes, channel.next);
        let Ok(bound) = second else {
            return Err(second.unwrap_err());
        };
        Ok(Place {
            form: Form::Input(Act {
                channel: channel.value,
                object: bound.value,
            }),
            next: bound.next,
        })
    }

    // An output: the channel, then the name sent.
    #[tactic(auto, using(crate::proofs::FormSteps::form_steps))]
    fn output_form(&self, at: usize, next: usize, room: bool) -> Result<Place, Refusal>
        ensures { told result ≡ limited room at (output_form self.now.bytes.now next) }
    {
        if !room {
            return Err(Question::Limits.at(at));
        }
        let first = byte_at(self.bytes, next);
        let Ok(channel) = first else {
            return Err(first.unwrap_err());
        };
        let second = byte_at(self.bytes, channel.next);
        let Ok(sent) = second else {
            return Err(second.unwrap_err());
        };
        Ok(Place {
            form: Form::Output(Act {
                channel: channel.value,
                object: sent.value,
            }),
            next: sent.next,
        })
    }

    // A group in its range (question 4) that is new to the path (question 6).
    #[tactic(auto, using(crate::proofs::FormSteps::fresh_steps))]
    fn fresh_group(&self, at: usize, path: Path) -> Result<Number, Refusal>
        ensures { number result ≡ fresh_group_in self.now.dialect self.now.bytes.now at (path_of path) }
    {
        let read = byte_below(self.bytes, at, self.dialect.groups());
        let Ok(group) = read else {
            return read;
        };
        if path.has(group.value) {
            Err(Question::NewGroup.at(at))
        } else {
            Ok(group)
        }
    }

    // A group: one that is new to the path.
    #[tactic(auto, using(crate::proofs::FormSteps::form_steps))]
    fn group_form(&self, at: usize, next: usize, path: Path, room: bool) -> Result<Place, Refusal>
        ensures { told result ≡ limited room at (group_form_in self.now.dialect self.now.bytes.now next (path_of path)) }
    {
        if !room {
            return Err(Question::Limits.at(at));
        }
        let read = self.fresh_group(next, path);
        let Ok(group) = read else {
            return Err(read.unwrap_err());
        };
        Ok(Place {
            form: Form::Group(group.value),
            next: group.next,
        })
    }

    // The purpose of a component, in its range (question 4); 0 where the dialect states none.
    #[tactic(auto, using(crate::proofs::FormSteps::purpose_steps))]
    fn purpose(&self, at: usize) -> Result<Number, Refusal>
        ensures { number result ≡ purpose_in self.now.dialect self.now.bytes.now at }
    {
        let bound = self.dialect.purposes();
        if 0 < bound {
            byte_below(self.bytes, at, bound)
        } else {
            Ok(Number { value: 0, next: at })
        }
    }

    // A component: its own fields, the group, which is new to the path, and then the purpose.
    #[tactic(auto, using(crate::proofs::FormSteps::form_steps))]
    fn component_form(
        &self,
        at: usize,
        next: usize,
        path: Path,
        room: bool,
    ) -> Result<Place, Refusal>
        ensures { told result ≡ limited room at (component_form_in self.now.dialect self.now.bytes.now next (path_of path)) }
    {
        if !room {
            return Err(Question::Limits.at(at));
        }
        let first = self.fresh_group(next, path);
        let Ok(group) = first else {
            return Err(first.unwrap_err());
        };
        let second = self.purpose(group.next);
        let Ok(purpose) = second else {
            return Err(second.unwrap_err());
        };
        Ok(Place {
            form: Form::Component(OwnFields {
                group: group.value,
                purpose: purpose.value,
            }),
            next: purpose.next,
        })
    }

    /// What stands at a place of a process, with the permitted nesting that is left and the number of names in scope.
    #[tactic(auto, using(crate::proofs::FormSteps::process_forms_lem))]
    pub fn process_at(&self, spot: Spot) -> Result<Place, Refusal>
        ensures { told result ≡ process_at_in self.now.dialect self.now.bytes.now spot.at spot.nest spot.names }
    {
        let at = spot.at;
        let read = byte_at(self.bytes, at);
        let Ok(byte) = read else {
            return Err(read.unwrap_err());
        };
        let next = byte.next;
        let level = 0 < spot.nest;
        let binder = spot.binds();
        match byte.value {
            0 => bare(Form::Nil, at, next, level),
            1 => bare(Form::Par, at, next, level),
            3 => self.new_form(at, next, binder),
            5 => self.input_form(at, next, binder),
            6 => self.output_form(at, next, level),
            7 => bare(Form::Replicate, at, next, level),
            _ => no_form(at),
        }
    }

    /// What stands at a place of a system; beside a process's limits, the path so far and the number of components so far.
    #[tactic(auto, using(crate::proofs::FormSteps::system_forms_lem))]
    pub fn system_at(&self, spot: Spot, path: Path, components: usize) -> Result<Place, Refusal>
        ensures { told result ≡ system_at_in self.now.dialect self.now.bytes.now spot.at spot.nest spot.names (path_of path) components }
    {
        let at = spot.at;
        let read = byte_at(self.bytes, at);
        let Ok(byte) = read else {
            return Err(read.unwrap_err());
        };
        let next = byte.next;
        let level = 0 < spot.nest;
        let binder = spot.binds();
        match byte.value {
            0 => bare(Form::Nil, at, next, level),
            1 => bare(Form::Par, at, next, level),
            2 => self.group_form(at, next, path, spot.deepens(path)),
            3 => self.new_form(at, next, binder),
            4 => self.component_form(at, next, path, spot.places(path, components)),
            _ => no_form(at),
        }
    }
}
