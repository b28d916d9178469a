// Typing and inference of a whole sheet.
ghost use Rattle.std.specs.Prelude.{◌≡◌, ◌≤◌, ℕ};
ghost use Rattle.reading.specs.Syntax.{Sheet};
ghost use Rattle.reading.specs.Read.{got};
ghost use Rattle.reading.specs.System.{read_sheet};
ghost use Rattle.inference.specs.Walks.{InferredSheet, LoadedTypes, LoadedFree};

use crate::{Inference, Walker};
use reading::bytes::byte_below;
use reading::types::type_at;
use reading::{Dialect, Number, Path, Spot};

// Binds the types that stand from a place on, `count` of them; the number bound and the place after them.
#[tactic(auto, using(crate::proofs::SheetSteps::sheet_steps))]
fn load_types(s: &[u8], at: usize, count: usize, scope: &mut [usize; 64]) -> Number
    requires { count ≤ 64 }
    ensures { LoadedTypes count s.now at scope.new result }
{
    let mut next = at;
    for names in 0..count {
        let read = type_at(Dialect::Current, s, next);
        let Ok(t) = read else {
            return Number { value: names, next };
        };
        scope[names] = t.value;
        next = t.next;
    }
    Number { value: count, next }
}

// Binds the free names of a sheet.
#[tactic(auto, using(crate::proofs::SheetSteps::sheet_steps))]
fn load_free(s: &[u8], scope: &mut [usize; 64]) -> Number
    ensures { LoadedFree s.now scope.new result }
{
    let read = byte_below(s, 0, 33);
    let Ok(count) = read else {
        return Number { value: 0, next: 0 };
    };
    load_types(s, count.next, count.value, scope)
}

/// Types and infers a sheet that passes questions 1 to 6; the table must be clear.
#[tactic(auto, using(crate::proofs::SheetSteps::sheet_steps))]
pub fn infer(s: &[u8], table: &mut [u16]) -> Inference
    ensures { (sheet : Sheet) (end : ℕ) → read_sheet s.now ≡ got sheet end
        → InferredSheet sheet table.old table.new result }
{
    let mut scope = [0usize; 64];
    let free = load_free(s, &mut scope);
    let mut walker = Walker {
        sheet: s,
        table,
        scope,
        components: 0,
        fault: None,
    };
    let spot = Spot {
        at: free.next,
        nest: 64,
        names: free.value,
    };
    let _ = walker.system(spot, Path::empty());
    Inference {
        fault: walker.fault,
        components: walker.components,
    }
}
