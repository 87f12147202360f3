//! How near a value is to an end.

ghost use Rattle.std.specs.Prelude.{◌≡◌, OnOk};
ghost use Rattle.exact_num.specs.Value.{value_of};
ghost use Rattle.span_finder.specs.RoundedSpans.{LieWithin, measure_of};

use crate::slack::absolute;
use certified_answers::NoAnswer;
use exact_num::{Frac, cmp_frac, mul, ratio, sub};
use row_core::fraction;

/// One value is above another by at most so many millionths of the measure of an end.
pub(crate) fn checked_near(ppm: u32, more: Frac, less: Frac, end: Frac) -> Result<(), NoAnswer>
    ensures { OnOk result (LieWithin ppm (value_of more) (value_of less) (value_of end)) }
{
    let Ok(gap) = sub(more, less) else {
        return Err(NoAnswer::Nothing);
    };
    let Ok(allowed) = mul(ratio(i128::from(ppm), 1_000_000), measure_of(end)) else {
        return Err(NoAnswer::Nothing);
    };
    if cmp_frac(gap, allowed).is_le() {
        Ok(())
    } else {
        Err(NoAnswer::Nothing)
    }
}

/// The greater of 1 and the absolute value of an end.
fn measure_of(end: Frac) -> Frac
    ensures { value_of result ≡ measure_of (value_of end) }
{
    let size = absolute(end);
    let least = fraction(1);
    if cmp_frac(size, least).is_le() {
        least
    } else {
        size
    }
}
