//! What the definitions say of one another, as the contracts of functions that do nothing.

ghost use Rattle.param_tables.specs.Ranges.{RangesAreTold};
ghost use Rattle.param_tables.specs.SameData.{CanonicalDataAreTold};

/// A value has no fault exactly where it lies in its range.
pub fn range_laws()
    ensures told { RangesAreTold }
{}

/// Data in canonical form say what the data say, and data that give the same are then equal.
pub fn canonical_laws()
    ensures told { CanonicalDataAreTold }
{}
