//! Changes by their size.

ghost use Rattle.std.specs.Prelude.{◌≡◌, ◌-◌, ◌^◌, OnOk};
ghost use Rattle.plan_compare.specs.GreatestFirst.{greatest_first, size_of_change};

use crate::amounts::{difference, size};
use crate::change::Change;
use std::alloc::AllocError;

/// No size is above this.
const GREATEST: u128 = 170_141_183_460_469_231_731_687_303_715_884_105_728;

/// Sorts changes, the greatest difference first; those of one size stay in their order.
pub(crate) fn sort(changes: &mut Vec<Change>) -> Result<(), AllocError>
    ensures { OnOk result (changes.new.items ≡ greatest_first size_of_change changes.old.items) }
{
    changes.sort_by_key(|change| rank(*change))
}

// How far the size of a change is below the greatest.
fn rank(change: Change) -> u128
    ensures { result ≡ 2 ^ 127 - size_of_change change }
{
    GREATEST - size(difference(change.one, change.two))
}
