// A whole encoded system: the free names, one system, and nothing after it.
ghost use Rattle.std.specs.Prelude.{◌≡◌, ◌<◌};
ghost use Rattle.reading.specs.System.{
  component,
  read_process_in,
  read_system_in,
  free_types_in,
  read_sheet_in,
  sheet_of_in,
  sheet_of,
};
ghost use Rattle.reading.specs.declared.OwnFields.{OwnFields};
ghost use Rattle.reading.specs.Told.{number, ending, ended, counted, counted_in, path_of};

use crate::bytes::byte_below;
use crate::types::type_at;
use crate::{Dialect, Form, Number, Path, Question, Refusal, Source, Spot};

impl Source<'_> {
    /// Reads past a process, form by form: a call for the first part of each parallel form, a turn for all else. The permitted
    /// nesting falls at each.
    // Not a `Spot`: a call with one takes 15 per cent more instructions for each parallel form.
    #[tactic(auto, using(crate::proofs::ProcessSteps::process_steps, crate::proofs::ProcessSteps::process_arms))]
    pub fn read_process(&self, from: usize, levels: usize, bound: usize) -> Result<usize, Refusal>
        ensures { ending result ≡ ended (read_process_in self.now.dialect levels self.now.bytes.now bound from) }
    {
        let mut at = from;
        let mut nest = levels;
        let mut names = bound;
        // The loop stays, here and below: a call for each form in its place takes twice the instructions.
        loop {
            let read = self.process_at(Spot { at, nest, names });
            let Ok(place) = read else {
                return Err(read.unwrap_err());
            };
            let next = place.next;
            nest -= 1;
            match place.form {
                Form::Nil => {
                    return Ok(next);
                }
                Form::Par => {
                    let left = self.read_process(next, nest, names);
                    let Ok(middle) = left else {
                        return left;
                    };
                    at = middle;
                }
                Form::New(_) | Form::Input(_) => {
                    at = next;
                    names += 1;
                }
                Form::Output(_) | Form::Replicate => {
                    at = next;
                }
                Form::Group(_) | Form::Component(_) => {
                    return Err(Question::Range.at(at));
                }
            }
        }
    }

    // Reads past a component's process and counts the component, whatever its own fields.
    #[tactic(auto, using(crate::proofs::SystemSteps::component_steps))]
    fn read_component(&self, spot: Spot, components: usize) -> Result<Number, Refusal>
        requires { components < 32 }
        ensures { (own : OwnFields) → number result ≡ counted components (component own (read_process_in self.now.dialect spot.nest self.now.bytes.now spot.names spot.at)) }
    {
        let end = self.read_process(spot.at, spot.nest, spot.names);
        let Ok(next) = end else {
            return Err(end.unwrap_err());
        };
        Ok(Number {
            value: components + 1,
            next,
        })
    }

    /// Reads past a system, form by form, as a process is read. The number found is that of the components so far, those of this
    /// system included.
    #[tactic(auto, using(crate::proofs::SystemSteps::system_steps, crate::proofs::SystemSteps::at_par, crate::proofs::SystemSteps::at_group, crate::proofs::SystemSteps::at_new))]
    pub fn read_system(&self, from: Spot, above: Path, preceding: usize) -> Result<Number, Refusal>
        ensures { number result ≡ counted preceding (read_system_in self.now.dialect from.nest self.now.bytes.now from.names (path_of above) preceding from.at) }
    {
        let mut spot = from;
        let mut path = above;
        let mut components = preceding;
        loop {
            let read = self.system_at(spot, path, components);
            let Ok(place) = read else {
                return Err(read.unwrap_err());
            };
            let next = place.next;
            spot.nest -= 1;
            match place.form {
                Form::Nil => {
                    return Ok(Number {
                        value: components,
                        next,
                    });
                }
                Form::Par => {
                    let left = self.read_system(Spot { at: next, ..spot }, path, components);
                    let Ok(middle) = left else {
                        return left;
                    };
                    spot.at = middle.next;
                    components = middle.value;
                }
                Form::Group(group) => {
                    spot.at = next;
                    path = path.with(group);
                }
                Form::New(_) => {
                    spot.at = next;
                    spot.names += 1;
                }
                Form::Component(_) => {
                    return self.read_component(Spot { at: next, ..spot }, components);
                }
                Form::Input(_) | Form::Output(_) | Form::Replicate => {
                    return Err(Question::Range.at(spot.at));
                }
            }
        }
    }

    // Reads past `count` stored types.
    #[tactic(auto, using(crate::proofs::SheetSteps::types_left))]
    fn free_types(&self, at: usize, count: usize) -> Result<usize, Refusal>
        ensures { ending result ≡ ended (free_types_in self.now.dialect count self.now.bytes.now at) }
    {
        let mut next = at;
        for _ in 0..count {
            let read = type_at(self.dialect, self.bytes, next);
            let Ok(free) = read else {
                return Err(read.unwrap_err());
            };
            next = free.next;
        }
        Ok(next)
    }

    // Questions 2 to 6. The number found is that of the components.
    #[tactic(auto, using(crate::proofs::SheetSteps::sheet_steps))]
    fn read_sheet(&self) -> Result<Number, Refusal>
        ensures { number result ≡ counted_in (read_sheet_in self.now.dialect self.now.bytes.now) }
    {
        let count = byte_below(self.bytes, 0, 33);
        let Ok(free) = count else {
            return count;
        };
        let types = self.free_types(free.next, free.value);
        let Ok(start) = types else {
            return Err(types.unwrap_err());
        };
        let from = Spot {
            at: start,
            nest: 64,
            names: free.value,
        };
        let read = self.read_system(from, Path::empty(), 0);
        let Ok(system) = read else {
            return read;
        };
        if system.next == self.bytes.len() {
            Ok(system)
        } else {
            Err(Question::NoneLeft.at(system.next))
        }
    }
}

/// Questions 1 to 6 of document 01, for a sheet and a charter of any bytes. The number found is that of the sheet's components.
#[tactic(auto, using(crate::proofs::Tests::tests), unfolding(crate::specs::System::sheet_of_in, crate::specs::Told::counted_in))]
pub fn read_in(dialect: Dialect, sheet: &[u8], charter: &[u8]) -> Result<Number, Refusal>
    ensures { number result ≡ counted_in (sheet_of_in dialect sheet.now charter.now) }
{
    if 4096 < sheet.len() || 4096 < charter.len() {
        return Err(Question::Length.at(4096));
    }
    Source {
        dialect,
        bytes: sheet,
    }
    .read_sheet()
}

/// The same in the current dialect.
pub fn read(sheet: &[u8], charter: &[u8]) -> Result<Number, Refusal>
    ensures { number result ≡ counted_in (sheet_of sheet.now charter.now) }
{
    read_in(Dialect::Current, sheet, charter)
}
