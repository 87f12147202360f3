//! Written factors: what 1 of a later year is worth at a yearly rate, which part of an investment is left at the end of the last year,
//! and how an investment is spread over its life, as whole numbers of millionths or of billionths. They stand for the factors
//! DiscountFactor and DiscountFactorMid, for the salvage value's fraction, and for CapitalRecoveryFactor and PvAnnuity of the OSeMOSYS
//! long code (Howells et al., Energy Policy 2011, and its later editions), with every quotient rounded down. A rate is given in
//! billionths.
#![tactic(auto)]

mod capital_recovery;
mod factors;
mod laws;
mod values;

pub use capital_recovery::recovery;
pub use factors::Factors;
pub use laws::{bound_laws, closeness_laws, level_laws, root_laws};
