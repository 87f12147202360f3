//! The written factors, as fractions over their unit.

ghost use Rattle.std.specs.Prelude.{◌≡◌, ◌≤◌, ℤ, true};
ghost use Rattle.exact_num.specs.Range.{InRange};
ghost use Rattle.row_core.specs.Amounts.{Factor};
ghost use Rattle.row_core.specs.Calculated.{known, number_of};
ghost use Rattle.named_equations.specs.Positions.{years_since_first, years_in_all};
ghost use Rattle.named_equations.specs.RegionFactors.{AreRegionFactors, places_of};
ghost use Rattle.named_equations.specs.Salvage.{outlasts};
ghost use Rattle.named_equations.specs.WrittenFactors.{annuity_of, capital_factor_of, operating_factor_of, recovery_factor_of, salvage_fraction_of};
ghost use Rattle.named_equations.specs.Within.{IsRegion, IsTechnology, IsYear};

use crate::whole_numbers::{operational_life, own_rate};
use crate::years::{years_in_all, years_left, years_since_first};
use discount_factors::{Factors, recovery};
use exact_num::{Frac, ratio};
use param_tables::ModelData;

/// A written factor with as many decimal places as those of the region.
fn over_unit(region: &Factors, factor: i128) -> Option<Frac>
    requires { InRange factor }
    ensures { known result ≡ number_of (Factor region.now.places factor) }
{
    Some(ratio(factor, region.unit()))
}

/// What 1 that is due at the beginning of this year is worth at the beginning of the first.
pub fn capital_factor(model: &ModelData, factors: &[Factors], r: u16, y: u16) -> Option<Frac>
    requires factors { AreRegionFactors (places_of factors.now) model.now.facts factors.now }
    requires region { IsRegion model.now.facts r }
    requires year { IsYear model.now.facts y }
    ensures { known result ≡ number_of (Factor (places_of factors.now) (capital_factor_of (places_of factors.now) model.now.facts r (years_since_first model.now.facts y))) }
{
    let region = &factors[usize::from(r)];
    over_unit(region, region.capital(years_since_first(model, y)))
}

/// What 1 that is due when the last year is over is worth at the beginning of the first.
pub fn final_capital_factor(model: &ModelData, factors: &[Factors], r: u16) -> Option<Frac>
    requires factors { AreRegionFactors (places_of factors.now) model.now.facts factors.now }
    requires region { IsRegion model.now.facts r }
    requires year { IsYear model.now.facts 0 }
    ensures { known result ≡ number_of (Factor (places_of factors.now) (capital_factor_of (places_of factors.now) model.now.facts r (years_in_all model.now.facts))) }
{
    let region = &factors[usize::from(r)];
    over_unit(region, region.capital(years_in_all(model)))
}

/// What 1 that is due in the middle of this year is worth at the beginning of the first.
pub fn operating_factor(model: &ModelData, factors: &[Factors], r: u16, y: u16) -> Option<Frac>
    requires factors { AreRegionFactors (places_of factors.now) model.now.facts factors.now }
    requires region { IsRegion model.now.facts r }
    requires year { IsYear model.now.facts y }
    ensures { known result ≡ number_of (Factor (places_of factors.now) (operating_factor_of (places_of factors.now) model.now.facts r (years_since_first model.now.facts y))) }
{
    let region = &factors[usize::from(r)];
    over_unit(region, region.operating(years_since_first(model, y)))
}

/// The part of an investment of this year that is left when the last year is over, by this method of depreciation.
pub fn salvage_fraction(
    model: &ModelData,
    factors: &[Factors],
    method: u8,
    r: u16,
    t: u16,
    y: u16,
) -> Option<Frac>
    requires factors { AreRegionFactors (places_of factors.now) model.now.facts factors.now }
    requires method_least { 1 ≤ method }
    requires method_most { method ≤ 2 }
    requires region { IsRegion model.now.facts r }
    requires technology { IsTechnology model.now.facts t }
    requires year { IsYear model.now.facts y }
    requires outlasts { outlasts model.now.facts r t y ≡ true }
    ensures { known result ≡ number_of (Factor (places_of factors.now) (salvage_fraction_of (places_of factors.now) model.now.facts method r t y)) }
{
    let region = &factors[usize::from(r)];
    let life = operational_life(model, r, t);
    let age = years_left(model, y);
    over_unit(region, region.salvage(method, life, age))
}

/// The part of an investment that is due in each year of the technology's life, by the technology's own rate; of data of
/// profile 2, which have such rates.
pub fn recovery_factor(model: &ModelData, factors: &[Factors], r: u16, t: u16) -> Option<Frac>
    requires second { model.now.facts.second ≡ true }
    requires factors { AreRegionFactors (places_of factors.now) model.now.facts factors.now }
    requires region { IsRegion model.now.facts r }
    requires technology { IsTechnology model.now.facts t }
    ensures { known result ≡ number_of (Factor (places_of factors.now) (recovery_factor_of (places_of factors.now) model.now.facts r t)) }
{
    let region = &factors[usize::from(r)];
    let rate = own_rate(model, r, t);
    let life = operational_life(model, r, t);
    over_unit(region, recovery(rate, life, region.places()))
}

/// What 1 in each year of the technology's life is worth at its beginning, by the region's rate.
pub fn annuity(model: &ModelData, factors: &[Factors], r: u16, t: u16) -> Option<Frac>
    requires factors { AreRegionFactors (places_of factors.now) model.now.facts factors.now }
    requires region { IsRegion model.now.facts r }
    requires technology { IsTechnology model.now.facts t }
    ensures { known result ≡ number_of (Factor (places_of factors.now) (annuity_of (places_of factors.now) model.now.facts r t)) }
{
    let region = &factors[usize::from(r)];
    over_unit(region, region.annuity(operational_life(model, r, t)))
}
