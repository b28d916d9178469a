// The start of a run: the free names with their types, and what the sheet's system makes of threads and new names.
ghost use Rattle.std.specs.Prelude.{◌≡◌, ℕ, ◌≤◌, length};
ghost use Rattle.reading.specs.Read.{got};
ghost use Rattle.reading.specs.Syntax.{Sheet};
ghost use Rattle.reading.specs.System.{read_sheet};
ghost use Rattle.products.specs.Begins.{free_count, first_known, Room, GivenTypes, GivenFree, MadeSheet};
ghost use Rattle.products.specs.Makers.{Kept};
ghost use Rattle.products.specs.Starts.{Blank, Starts};

use crate::{Made, Maker, Sizes};
use decoding::noting::note_system;
use memory::{Thread, put};
use reading::bytes::byte_below;
use reading::types::type_at;
use reading::{Dialect, Number};

// How many free names there are, and the place of their types.
#[tactic(auto, using(crate::proofs::StartSteps::start_steps))]
fn free_count(s: &[u8]) -> Number
    ensures { result ≡ free_count s.now }
{
    let read = byte_below(s, 0, 33);
    let Ok(count) = read else {
        return Number { value: 0, next: 0 };
    };
    count
}

// The first names become known to the environment.
#[tactic(auto, using(crate::proofs::StartSteps::start_steps))]
fn know_first(known: &mut [bool], count: usize)
    ensures { known.new ≡ first_known count known.old }
{
    for i in 0..count {
        put(known, i, true);
    }
}

impl<'a> Maker<'a> {
    // Gives the first names, one after another, their types standing from a place on; the place after these types. Cell 0 is no
    // name's, so that the cell of name i is i + 1.
    #[tactic(auto, using(crate::proofs::StartSteps::start_steps))]
    fn give_types(&mut self, s: &[u8], at: usize, count: usize) -> Made
        ensures kept { Kept self.old self.new }
        ensures given { GivenTypes count s.now at self.old.types.now self.new.types.now
            self.old.cells.now self.new.cells.now result }
    {
        let mut next = at;
        let mut sizes = Sizes {
            threads: 0,
            names: 0,
            cells: 1,
        };
        for given in 0..count {
            let read = type_at(Dialect::Current, s, next);
            let Ok(found) = read else {
                return Made { next, sizes };
            };
            sizes = self.give(found.value, given, sizes);
            next = found.next;
        }
        Made { next, sizes }
    }

    // Gives the free names of a sheet.
    #[tactic(auto, using(crate::proofs::StartSteps::start_steps))]
    fn give_free(&mut self, s: &[u8]) -> Made
        ensures kept { Kept self.old self.new }
        ensures given { GivenFree s.now self.old.types.now self.new.types.now
            self.old.cells.now self.new.cells.now result }
    {
        let free = free_count(s);
        self.give_types(s, free.next, free.value)
    }
}

// Gives the free names of a sheet, in tables lent one by one: the forms, which a walk reads, are written only afterwards.
#[tactic(auto, using(crate::proofs::StartSteps::start_steps))]
fn give_free(
    s: &[u8],
    forms: &[usize],
    threads: &mut [usize],
    types: &mut [u32],
    cells: &mut [u32],
) -> Made
    ensures { GivenFree s.now types.old types.new cells.old cells.new result }
{
    let mut maker = Maker {
        forms,
        made: threads,
        types,
        cells,
    };
    maker.give_free(s)
}

// The same, then what the sheet's system makes, from its forms.
#[tactic(auto, using(crate::proofs::StartSteps::start_steps))]
fn make_sheet(
    s: &[u8],
    forms: &mut [usize],
    threads: &mut [usize],
    types: &mut [u32],
    cells: &mut [u32],
) -> Sizes
    ensures { length s.now ≤ length forms.old → 64 ≤ length threads.old
        → Room types.old cells.old
        → (sheet : Sheet) (end : ℕ) → length s.now ≤ 4096 → read_sheet s.now ≡ got sheet end
        → MadeSheet forms.new sheet threads.new types.new cells.new result }
{
    let given = give_free(s, forms, threads, types, cells);
    let names = given.sizes.names;
    let system = Thread {
        component: 0,
        env: names,
        names,
        nest: 64,
        at: given.next,
    };
    note_system(s, given.next, 64, forms);
    let mut maker = Maker {
        forms,
        made: threads,
        types,
        cells,
    };
    maker.make_system(system, given.sizes).sizes
}

/// The start of a sheet that passes questions 1 to 6, in blank tables: gives its free names, of which `known` then tells that the
/// environment knows them, notes its forms in `forms`, and makes the threads and new names of its system.
// The tables come in one by one: a struct made for this one call would be taken apart at once, to write the forms and then read them.
#[tactic(auto, using(crate::proofs::StartSteps::start_steps))]
pub fn start(
    s: &[u8],
    forms: &mut [usize],
    threads: &mut [usize],
    types: &mut [u32],
    known: &mut [bool],
    cells: &mut [u32],
) -> Sizes
    requires { Blank s.now forms.old threads.old types.old known.old cells.old }
    ensures { (sheet : Sheet) (end : ℕ) → length s.now ≤ 4096 → read_sheet s.now ≡ got sheet end
        → Starts forms.new sheet threads.new types.new known.new cells.new result }
{
    let free = free_count(s);
    know_first(known, free.value);
    make_sheet(s, forms, threads, types, cells)
}
