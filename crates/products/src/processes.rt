// What a process makes at once: nothing-forms vanish, parallel forms split in order, new names take the next number. The walk
// recurses over nested forms, the permitted nesting falling at each call.
ghost use Rattle.std.specs.Prelude.{◌≡◌, ◌+◌, ◌<◌};
ghost use Rattle.reading.specs.Syntax.{par, new};
ghost use Rattle.decoding.specs.Words.{item_at};
ghost use Rattle.decoding.specs.Tables.{process_in};
ghost use Rattle.products.specs.Makes.{Ready, Makes};
ghost use Rattle.products.specs.Makers.{Kept, MakesIn};

use crate::giving::{last_cell, push};
use crate::{Maker, Sizes};
use decoding::Item;
use decoding::words::item_at;
use memory::Thread;
use reading::Form;

impl<'a> Maker<'a> {
    /// Makes the threads and the new names of the process at a thread's place.
    #[cycle(process_walk)]
    #[tactic(auto, using(crate::proofs::MakeSteps::make_steps))]
    pub fn make_process(&mut self, thread: Thread, sizes: Sizes) -> Sizes
        ensures kept { Kept self.old self.new }
        ensures makes { MakesIn self.old thread (process_in thread.nest self.old.forms.now thread.at) sizes self.new result }
    {
        if thread.nest == 0 {
            return sizes;
        }
        let item = item_at(self.forms, thread.at);
        self.make_form(thread, item, sizes)
    }

    // The same, where this item stands at the place.
    #[cycle(process_walk)]
    #[tactic(auto, using(crate::proofs::MakeSteps::make_steps))]
    fn make_form(&mut self, thread: Thread, item: Item, sizes: Sizes) -> Sizes
        requires { (item ≡ item_at self.old.forms.now thread.at) × (0 < thread.nest) }
        ensures kept { Kept self.old self.new }
        ensures makes { MakesIn self.old thread (process_in thread.nest self.old.forms.now thread.at) sizes self.new result }
    {
        let inner = Thread {
            nest: thread.nest - 1,
            at: item.next,
            ..thread
        };
        match item.form {
            Form::Nil | Form::Group(_) | Form::Component(_) => sizes,
            Form::Par => self.make_par(inner, item.second, sizes),
            Form::New(name_type) => self.make_under(inner, name_type, sizes),
            Form::Input(_) | Form::Output(_) | Form::Replicate => push(thread, sizes, self.made),
        }
    }

    // Two processes, one after the other; the second stands at `second`.
    #[cycle(process_walk)]
    #[tactic(auto, using(crate::proofs::MakeSteps::make_steps))]
    fn make_par(&mut self, thread: Thread, second: usize, sizes: Sizes) -> Sizes
        ensures kept { Kept self.old self.new }
        ensures makes { second < 8192
            → MakesIn self.old thread
            (par (process_in thread.nest self.old.forms.now thread.at) (process_in thread.nest self.old.forms.now second)) sizes self.new result }
    {
        let left = self.make_process(thread, sizes);
        let rest = Thread {
            at: second,
            ..thread
        };
        self.make_process(rest, left)
    }

    // A process under a new name of a type.
    #[cycle(process_walk)]
    #[tactic(auto, using(crate::proofs::MakeSteps::make_steps))]
    fn make_under(&mut self, thread: Thread, name_type: usize, sizes: Sizes) -> Sizes
        requires { name_type < 4294967296 }
        ensures kept { Kept self.old self.new }
        ensures makes { thread.names + thread.nest < 128
            → MakesIn self.old thread (new name_type (process_in thread.nest self.old.forms.now thread.at)) sizes self.new result }
    {
        let given = self.give(name_type, thread.env, sizes);
        let inner = Thread {
            env: last_cell(given),
            names: thread.names.saturating_add(1),
            ..thread
        };
        self.make_process(inner, given)
    }
}

/// Makes what `Maker::make_process` makes, in tables lent one by one.
pub fn make_process(
    forms: &[usize],
    thread: Thread,
    sizes: Sizes,
    made: &mut [usize],
    types: &mut [u32],
    cells: &mut [u32],
) -> Sizes
    ensures { Ready thread sizes made.old types.old cells.old
        → Makes forms.now thread (process_in thread.nest forms.now thread.at) sizes
        made.old made.new types.old types.new cells.old cells.new result }
{
    let mut maker = Maker {
        forms,
        made,
        types,
        cells,
    };
    maker.make_process(thread, sizes)
}

/// The same, asked at the first form: only a parallel form and a new name want the walk.
// The tables come in one by one: where a struct of them is made for each move, a run of 1,024 moves takes some three per cent more.
#[inline(always)]
#[tactic(auto, using(crate::proofs::MakeSteps::make_steps))]
pub fn make(
    forms: &[usize],
    thread: Thread,
    sizes: Sizes,
    made: &mut [usize],
    types: &mut [u32],
    cells: &mut [u32],
) -> Sizes
    ensures { Ready thread sizes made.old types.old cells.old
        → Makes forms.now thread (process_in thread.nest forms.now thread.at) sizes
        made.old made.new types.old types.new cells.old cells.new result }
{
    if thread.nest == 0 {
        return sizes;
    }
    match item_at(forms, thread.at).form {
        Form::Nil | Form::Group(_) | Form::Component(_) => sizes,
        Form::Par | Form::New(_) => make_process(forms, thread, sizes, made, types, cells),
        Form::Input(_) | Form::Output(_) | Form::Replicate => push(thread, sizes, made),
    }
}
