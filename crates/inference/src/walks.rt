// The walk over a process of a sheet that passes questions 1 to 6: typing and inference together. It recurses over nested
// forms, the permitted nesting falling at each call, and takes each form from its bytes.
ghost use Rattle.std.specs.Prelude.{◌≡◌, map, take};
ghost use Rattle.std.proofs.Math.Option.{some};
ghost use Rattle.inference.specs.Walks.{Walked};
ghost use Rattle.inference.specs.Acts.{acts};
ghost use Rattle.reading.specs.Told.{path_of};
ghost use Rattle.reading.specs.Total.{process_tree};

use crate::{Context, Walker};
use reading::bytes::byte_in;
use reading::types::type_at;
use reading::{Dialect, Spot};

impl Walker<'_> {
    /// The process at a place, by its code byte: nothing (0), two parts in parallel (1), a new name (3), an input (5), an output (6), a
    /// repeat (7). What the reader would refuse counts as nothing. The place after it.
    pub fn process(&mut self, spot: Spot, context: Context) -> usize
        ensures { Walked (process_tree spot.nest self.old.sheet.now spot.names spot.at)
            (acts (record { number = context.component; path = path_of context.path; purpose = 0 }) context.repeated
            (map some (take spot.names self.old.scope))
            (process_tree spot.nest self.old.sheet.now spot.names spot.at).tree)
            spot.names self.old self.new result }
    {
        let sheet = self.sheet;
        let at = spot.at;
        let names = spot.names;
        if spot.nest == 0 {
            return at;
        }
        if sheet.len() <= at {
            return at;
        }
        let mut inner = spot;
        inner.nest -= 1;
        match sheet[at] {
            0 => at + 1,
            1 => {
                inner.at = at + 1;
                inner.at = self.process(inner, context);
                self.process(inner, context)
            }
            3 => {
                if 64 <= names {
                    return at;
                }
                let read = type_at(Dialect::Current, sheet, at + 1);
                let Ok(t) = read else {
                    return at;
                };
                self.scope[names] = t.value;
                inner.at = t.next;
                inner.names += 1;
                self.process(inner, context)
            }
            5 => {
                if 64 <= names {
                    return at;
                }
                let read = type_at(Dialect::Current, sheet, at + 2);
                let Ok(t) = read else {
                    return at;
                };
                let channel = self.type_of(names, byte_in(sheet, at + 1));
                self.act(false, channel, Some(t.value), context);
                self.scope[names] = t.value;
                inner.at = t.next;
                inner.names += 1;
                self.process(inner, context)
            }
            6 => {
                if sheet.len() <= at + 2 {
                    return at;
                }
                let channel = self.type_of(names, byte_in(sheet, at + 1));
                let object = self.type_of(names, byte_in(sheet, at + 2));
                self.act(true, channel, object, context);
                inner.at = at + 3;
                self.process(inner, context)
            }
            7 => {
                let mut under = context;
                under.repeated = true;
                inner.at = at + 1;
                self.process(inner, under)
            }
            _ => at,
        }
    }
}
