//! How many subscripts a parameter has, whatever its number.

ghost use Rattle.std.specs.Prelude.{◌≡◌};
ghost use Rattle.model_sets.specs.Params.{subscript_count};

use model_sets::param_numbers::PARAM_COUNT;
use model_sets::subscript_count;

/// How many subscripts the parameter has. There is one of this number wherever this is asked; the caller need
/// not show it.
pub(crate) fn subscripts_of(param: u8) -> u8
    ensures { result ≡ subscript_count param }
{
    let number = param.max(1);
    if usize::from(number) <= PARAM_COUNT {
        subscript_count(number)
    } else {
        0
    }
}
