//! What the definitions say of one another, each law as the contract of a function that does nothing.

ghost use Rattle.model_sets.specs.Years.{YearsAreTold};

/// The years by their texts, and by the test of a name.
pub fn year_laws()
    ensures told { YearsAreTold }
{}
