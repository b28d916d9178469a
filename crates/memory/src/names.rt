// The names given so far: which are known to the environment, and their types.
ghost use Rattle.std.specs.Prelude.{◌≡◌, true, false, ◌<◌, get_or, take, set};

use crate::put;

// What a table holds of a name, or `none` past the names given.
fn given<T: Copy>(table: &[T], names: usize, name: usize, none: T) -> T
    ensures { result ≡ get_or (take names table.now) name none }
{
    if name < names {
        table.get(name).copied().unwrap_or(none)
    } else {
        none
    }
}

/// Is a name known to the environment?
pub fn is_known(known: &[bool], names: usize, name: usize) -> bool
    ensures { result ≡ get_or (take names known.now) name false }
{
    given(known, names, name, false)
}

/// A name becomes known to the environment.
pub fn know(known: &mut [bool], name: usize)
    ensures { known.new ≡ set known.old name true }
{
    put(known, name, true);
}

/// The type of a name, 0 past the last.
pub fn type_of(types: &[u32], names: usize, name: usize) -> usize
    ensures { result ≡ get_or (take names types.now) name 0 }
{
    given(types, names, name, 0) as usize
}

/// Stores the type of a name, where there is such a place.
pub fn store_type(types: &mut [u32], name: usize, t: usize)
    requires { t < 4294967296 }
    ensures { types.new ≡ set types.old name t }
{
    put(types, name, t as u32);
}
