//! Whether a value lies in the range of its parameter.

ghost use Rattle.std.specs.Prelude.{◌≡◌};
ghost use Rattle.param_tables.specs.Ranges.{range_fault, life_fault, is_whole, unless};

use crate::fault::CellFault;
use model_sets::Range;

/// One, in billionths.
const ONE: i128 = 1_000_000_000;

/// The fault, unless the test passes.
fn unless(passes: bool, fault: CellFault) -> Option<CellFault>
    ensures { result ≡ unless passes fault }
{
    if passes { None } else { Some(fault) }
}

/// Whether the value, in billionths, is a whole number.
fn is_whole(value: i128) -> bool
    ensures { result ≡ is_whole value }
{
    value % ONE == 0
}

/// Why the value, in billionths, is no whole number from 1 to 200.
fn life_fault(value: i128) -> Option<CellFault>
    ensures { result ≡ life_fault value }
{
    if !is_whole(value) {
        return Some(CellFault::NotWhole);
    }
    unless(value >= ONE && value <= 200 * ONE, CellFault::OutOfRange)
}

/// Why the value, in billionths, lies outside the range.
pub(crate) fn range_fault(range: Range, value: i128) -> Option<CellFault>
    ensures { result ≡ range_fault range value }
{
    match range {
        Range::Any => None,
        Range::AtLeastZero => unless(value >= 0, CellFault::Negative),
        Range::AboveZero => unless(value > 0, CellFault::NotPositive),
        Range::ZeroToOne => unless(value >= 0 && value <= ONE, CellFault::OutOfRange),
        Range::OneOrTwo => unless(value == ONE || value == 2 * ONE, CellFault::OutOfRange),
        Range::Lifetime => life_fault(value),
        Range::ZeroOnly => unless(value == 0, CellFault::WholeUnits),
        Range::MinusOneOrAtLeastZero => unless(value == -ONE || value >= 0, CellFault::OutOfRange),
    }
}
