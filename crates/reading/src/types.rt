// Types: how a stored type is read into a number, and which shape a type has.
ghost use Rattle.std.specs.Prelude.{◌≡◌, ◌≤◌};
ghost use Rattle.reading.specs.Types.{shape, groups_then_kind_in, type_at_in};
ghost use Rattle.reading.specs.Told.{number};

use crate::bytes::byte_below;
use crate::{Dialect, Number, Refusal, Shape};

/// The shape of a type.
#[tactic(auto, using(crate::proofs::Tests::tests), unfolding(crate::specs::Types::shape))]
pub fn shape_of(t: usize) -> Shape
    ensures { result ≡ shape t }
{
    if t < 16 {
        Shape::Plain(t)
    } else {
        Shape::Channel {
            group: (t - 16) % 64,
            carried: (t - 16) / 64,
        }
    }
}

// `count` groups, the outermost first, then the kind. The groups read so far add `sum` to the type's number, and the type that
// they carry adds `factor` times its own.
#[tactic(auto, using(crate::proofs::TypeSteps::groups_left))]
fn groups_then_kind(dialect: Dialect, s: &[u8], at: usize, count: usize) -> Result<Number, Refusal>
    requires { count ≤ 4 }
    ensures { number result ≡ groups_then_kind_in dialect count s.now at }
{
    let mut next = at;
    let mut sum: usize = 0;
    let mut factor: usize = 1;
    for _ in 0..count {
        let read = byte_below(s, next, dialect.groups());
        let Ok(group) = read else {
            return read;
        };
        next = group.next;
        sum += factor * (16 + group.value);
        factor *= 64;
    }
    let read = byte_below(s, next, dialect.kinds());
    let Ok(kind) = read else {
        return read;
    };
    Ok(Number {
        value: sum + factor * kind.value,
        next: kind.next,
    })
}

/// A stored type: the count of groups, the groups, the kind.
#[tactic(auto, using(crate::proofs::TypeSteps::type_steps))]
pub fn type_at(dialect: Dialect, s: &[u8], at: usize) -> Result<Number, Refusal>
    ensures { number result ≡ type_at_in dialect s.now at }
{
    let read = byte_below(s, at, 5);
    let Ok(count) = read else {
        return read;
    };
    groups_then_kind(dialect, s, count.next, count.value)
}
