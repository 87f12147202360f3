//! Signs and absolute values of exact numbers.

ghost use Rattle.std.specs.Prelude.{◌≡◌, ◌||◌, pos, int_le};
ghost use Rattle.exact_num.specs.Value.{value_of};
ghost use Rattle.row_core.specs.Kinds.{kind_is_free};
ghost use Rattle.row_core.specs.Statements.{stands};
ghost use Rattle.certificate_checker.specs.PlanChecks.{absolute};

use exact_num::Frac;
use row_core::kind_numbers::KIND_COUNT;
use row_core::{Sense, is_free};

/// The absolute value.
pub(crate) fn absolute(value: Frac) -> Frac
    ensures { value_of result ≡ absolute (value_of value) }
{
    let num = if value.num < 0 { -value.num } else { value.num };
    Frac {
        num,
        den: value.den,
    }
}

/// Whether a number stands in this sense to 0.
pub(crate) fn stands_to_zero(sense: Sense, number: i128) -> bool
    ensures { result ≡ stands sense number (pos 0) }
{
    match sense {
        Sense::Least => number >= 0,
        Sense::Equal => number == 0,
        Sense::Most => number <= 0,
    }
}

/// Whether variables of this kind may be below 0. There are none of a kind that isn't listed.
pub(crate) fn may_be_negative(kind: u8) -> bool
    ensures { result ≡ kind_is_free kind }
{
    1 <= kind && (kind as usize) <= KIND_COUNT && is_free(kind)
}
