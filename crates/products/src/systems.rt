// What a system makes at once, in sheet order: what its components' processes make, and its own new names. The walk recurses over
// nested forms, the permitted nesting falling at each call.
ghost use Rattle.std.specs.Prelude.{◌≡◌, ◌+◌, ◌<◌, ◌≤◌};
ghost use Rattle.reading.specs.Syntax.{parₛ, newₛ, compₛ, components};
ghost use Rattle.reading.specs.declared.OwnFields.{OwnFields};
ghost use Rattle.decoding.specs.Words.{item_at};
ghost use Rattle.decoding.specs.Tables.{process_in, system_in};
ghost use Rattle.products.specs.Makers.{Kept, MakesSystemIn};

use crate::giving::last_cell;
use crate::{MadeSystem, Maker, Sizes};
use decoding::Item;
use decoding::words::item_at;
use memory::Thread;
use reading::Form;

impl<'a> Maker<'a> {
    /// Makes the threads and the new names of the system at a place; `thread.component` is the number of its first component.
    #[cycle(system_walk)]
    #[tactic(auto, using(crate::proofs::SystemSteps::system_steps))]
    pub fn make_system(&mut self, thread: Thread, sizes: Sizes) -> MadeSystem
        ensures kept { Kept self.old self.new }
        ensures makes { thread.component + components (system_in thread.nest self.old.forms.now thread.at) ≤ 32
            → MakesSystemIn self.old thread (system_in thread.nest self.old.forms.now thread.at) sizes self.new result }
    {
        if thread.nest == 0 {
            return MadeSystem {
                components: thread.component,
                sizes,
            };
        }
        let item = item_at(self.forms, thread.at);
        self.make_system_form(thread, item, sizes)
    }

    // The same, where this item stands at the place.
    #[cycle(system_walk)]
    #[tactic(auto, using(crate::proofs::SystemSteps::system_steps))]
    fn make_system_form(&mut self, thread: Thread, item: Item, sizes: Sizes) -> MadeSystem
        requires { (item ≡ item_at self.old.forms.now thread.at) × (0 < thread.nest) }
        ensures kept { Kept self.old self.new }
        ensures makes { thread.component + components (system_in thread.nest self.old.forms.now thread.at) ≤ 32
            → MakesSystemIn self.old thread (system_in thread.nest self.old.forms.now thread.at) sizes self.new result }
    {
        let inner = Thread {
            nest: thread.nest - 1,
            at: item.next,
            ..thread
        };
        match item.form {
            Form::Par => self.make_system_par(inner, item.second, sizes),
            Form::Group(_) => self.make_system(inner, sizes),
            Form::New(name_type) => self.make_system_under(inner, name_type, sizes),
            Form::Component(_) => self.make_component(inner, sizes),
            Form::Nil | Form::Input(_) | Form::Output(_) | Form::Replicate => {
                MadeSystem {
                    components: thread.component,
                    sizes,
                }
            }
        }
    }

    // A component: its process. It is one more.
    #[tactic(auto, using(crate::proofs::SystemSteps::system_steps))]
    fn make_component(&mut self, thread: Thread, sizes: Sizes) -> MadeSystem
        ensures kept { Kept self.old self.new }
        ensures makes { thread.component < 32 → (own : OwnFields)
            → MakesSystemIn self.old thread (compₛ own (process_in thread.nest self.old.forms.now thread.at)) sizes self.new result }
    {
        let sizes = self.make_process(thread, sizes);
        MadeSystem {
            components: thread.component.saturating_add(1),
            sizes,
        }
    }

    // Two systems, one after the other; the second stands at `second` and counts on from the components of the first.
    #[cycle(system_walk)]
    #[tactic(auto, using(crate::proofs::SystemSteps::system_steps))]
    fn make_system_par(&mut self, thread: Thread, second: usize, sizes: Sizes) -> MadeSystem
        ensures kept { Kept self.old self.new }
        ensures makes { second < 8192
            → thread.component + components (parₛ (system_in thread.nest self.old.forms.now thread.at) (system_in thread.nest self.old.forms.now second)) ≤ 32
            → MakesSystemIn self.old thread
            (parₛ (system_in thread.nest self.old.forms.now thread.at) (system_in thread.nest self.old.forms.now second)) sizes self.new result }
    {
        let left = self.make_system(thread, sizes);
        let rest = Thread {
            component: left.components,
            at: second,
            ..thread
        };
        self.make_system(rest, left.sizes)
    }

    // A system under a new name of a type.
    #[cycle(system_walk)]
    #[tactic(auto, using(crate::proofs::SystemSteps::system_steps))]
    fn make_system_under(&mut self, thread: Thread, name_type: usize, sizes: Sizes) -> MadeSystem
        requires { name_type < 4294967296 }
        ensures kept { Kept self.old self.new }
        ensures makes { thread.names + thread.nest < 128 → thread.component + components (system_in thread.nest self.old.forms.now thread.at) ≤ 32
            → MakesSystemIn self.old thread (newₛ name_type (system_in thread.nest self.old.forms.now thread.at)) sizes self.new result }
    {
        let given = self.give(name_type, thread.env, sizes);
        let inner = Thread {
            env: last_cell(given),
            names: thread.names.saturating_add(1),
            ..thread
        };
        self.make_system(inner, given)
    }
}
