// The walk over a system: it numbers the components, stores their paths and purposes and walks their processes.
ghost use Rattle.std.specs.Prelude.{◌≡◌, true, map, ◌<◌, ltb, length, take};
ghost use Rattle.std.proofs.Math.Option.{some};
ghost use Rattle.inference.specs.Walks.{WalkedAt, opens};
ghost use Rattle.reading.specs.Syntax.{compₛ};
ghost use Rattle.reading.specs.Told.{path_of};
ghost use Rattle.reading.specs.Total.{under, system_grown, process_tree, system_tree};

use crate::rows::{store_path, store_purpose};
use crate::{Context, Walker};
use reading::{Dialect, Form, OwnFields, Path, Source, Spot};

impl Walker<'_> {
    // A component: its path and purpose go into its row, its process is walked.
    #[tactic(auto, using(crate::proofs::SystemSteps::system_steps))]
    fn component(&mut self, spot: Spot, path: Path, own: OwnFields) -> usize
        requires { (ltb (length (path_of path)) 8 ≡ true) × (self.old.components < 32) × (own.group < 65536) }
        ensures { WalkedAt (path_of path) (under (compₛ own) (process_tree spot.nest self.old.sheet.now spot.names spot.at))
            spot.names self.old self.new result }
    {
        let whole = path.with(own.group);
        let component = self.components;
        let context = Context {
            component,
            path: whole,
            repeated: false,
        };
        store_purpose(self.table, component, own.purpose);
        store_path(self.table, component, whole);
        self.components = component + 1;
        self.process(spot, context)
    }

    /// The system at a place; the place after it.
    #[cycle(system_form)]
    #[tactic(auto, using(crate::proofs::SystemSteps::system_steps))]
    pub fn system(&mut self, spot: Spot, path: Path) -> usize
        ensures { WalkedAt (path_of path)
            (system_tree spot.nest self.old.sheet.now spot.names (path_of path) self.old.components spot.at)
            spot.names self.old self.new result }
    {
        let source = Source {
            dialect: Dialect::Current,
            bytes: self.sheet,
        };
        let read = source.system_at(spot, path, self.components);
        let Ok(place) = read else {
            return spot.at;
        };
        let inner = Spot {
            at: place.next,
            nest: spot.nest - 1,
            names: spot.names,
        };
        self.form(spot.at, place.form, inner, path)
    }

    // The system that begins with a form at `at`; `inner` is where its parts begin.
    #[cycle(system_form)]
    #[tactic(auto, using(crate::proofs::SystemSteps::system_steps))]
    fn form(&mut self, at: usize, form: Form, inner: Spot, path: Path) -> usize
        requires { opens inner.names (path_of path) self.old.components form ≡ true }
        ensures { WalkedAt (path_of path) (system_grown (λ ns p k m. system_tree inner.nest self.old.sheet.now ns p k m)
            (λ m. process_tree inner.nest self.old.sheet.now inner.names m) at inner.names (path_of path) self.old.components form inner.at)
            inner.names self.old self.new result }
    {
        match form {
            Form::Nil => inner.at,
            Form::Par => {
                let mut rest = inner;
                rest.at = self.system(inner, path);
                self.system(rest, path)
            }
            Form::Group(g) => self.system(inner, path.with(g)),
            Form::New(t) => {
                let mut deeper = inner;
                deeper.names += 1;
                self.scope[inner.names] = t;
                self.system(deeper, path)
            }
            Form::Component(own) => self.component(inner, path, own),
            Form::Input(_) => at,
            Form::Output(_) => at,
            Form::Replicate => at,
        }
    }
}
