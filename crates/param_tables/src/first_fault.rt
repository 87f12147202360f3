//! The first fault of a parameter at its indices.

ghost use Rattle.std.specs.Prelude.{◌≡◌};
ghost use Rattle.param_tables.specs.Tables.{IsTable, IsFirstFault, entries_of, fault_before, given_in, place_fault};
ghost use Rattle.param_tables.specs.Ranges.{range_fault};

use crate::fault::CellFault;
use crate::param_table::ParamTable;
use crate::ranges::range_fault;
use model_sets::Range;

/// A fault of a parameter at the place of an index.
#[derive(Clone, Copy, PartialEq, Eq, Debug)]
pub(crate) struct PlaceFault {
    pub(crate) place: u64,
    pub(crate) fault: CellFault,
}

/// The fault of a missing value at the place, where it lies before the end.
fn fault_before(missing: Option<CellFault>, place: u64, end: u64) -> Option<PlaceFault>
    ensures { result ≡ fault_before missing place end }
{
    if place >= end {
        return None;
    }
    let fault = missing?;
    Some(PlaceFault { place, fault })
}

/// Why the value, in billionths, lies outside the range.
fn fault_of(range: Range, value: &i128) -> Option<CellFault>
    ensures { result ≡ range_fault range value.now }
{
    range_fault(range, *value)
}

/// The first fault below `size`, where a place without a value has the fault `missing`. Only the values
/// given are looked at: the first place without one is the first gap between their places.
pub(crate) fn first_fault(
    table: &ParamTable,
    range: Range,
    missing: Option<CellFault>,
    size: u64,
) -> Option<PlaceFault>
    requires { IsTable size table.now }
    ensures { IsFirstFault (λ place. place_fault range missing (given_in (entries_of table.now) place)) size result }
{
    let mut next = 0;
    for (i, place) in table.places.iter().enumerate() {
        if let Some(found) = fault_before(missing, next, *place) {
            return Some(found);
        }
        if let Some(fault) = fault_of(range, &table.values[i]) {
            return Some(PlaceFault {
                place: *place,
                fault,
            });
        }
        next = *place + 1;
    }
    fault_before(missing, next, size)
}
