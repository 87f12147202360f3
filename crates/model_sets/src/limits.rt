//! How many members a set may have.

ghost use Rattle.std.specs.Prelude.{◌≡◌, ◌≤◌};
ghost use Rattle.model_sets.specs.Names.{IsSet, limit_of};

use crate::set_numbers::SET_COUNT;

/// The greatest numbers of members, from set 1.
const LIMITS: [u16; SET_COUNT] = [20, 500, 200, 50, 20, 300, 120, 1000, 1000, 1000, 1000];

/// How many members the set may have.
pub(crate) fn limit_of(set: u8) -> u16
    requires { IsSet set }
    ensures limit { result ≡ limit_of set }
    ensures most { result ≤ 1000 }
{
    LIMITS[usize::from(set - 1)]
}
