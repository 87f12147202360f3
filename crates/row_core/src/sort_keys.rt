//! A number for each variable that rises with it in nearly all models, so that lists are sorted by numbers first.

ghost use Rattle.std.specs.Prelude.{◌≡◌};
ghost use Rattle.row_core.specs.SortKeys.{sort_key};

use crate::Var;

/// The number of a variable: its kind and its subscripts, each in bits of its own, but for the fuel and the emission, since no
/// kind has both. Numbers compare in one step, where variables take up to nine. It need not tell variables apart: that only
/// leaves more to do for a sort after it.
pub fn sort_key(var: Var) -> u64
    ensures { result ≡ sort_key var }
{
    let index = var.index;
    let place = var.kind as u64 * 18_014_398_509_481_984
        + index.region as u64 * 70_368_744_177_664
        + index.other as u64 * 1_099_511_627_776
        + index.slice as u64 * 17_179_869_184;
    let within = index.tech as u64 * 4_194_304
        + index.fuel as u64 * 16_384
        + index.emission as u64 * 16_384
        + index.mode as u64 * 128
        + index.year as u64;
    place + within
}
