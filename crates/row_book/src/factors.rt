//! The written factors of the regions: what 1 of a later year is worth, what is left of an investment, and what is due of it
//! each year.

ghost use Rattle.std.specs.Prelude.{◌≡◌, ℕ, ◌≤◌, IfOk};
ghost use Rattle.discount_factors.specs.Factors.{IsPlaces};
ghost use Rattle.named_equations.specs.Positions.{years_in_all};
ghost use Rattle.named_equations.specs.RegionFactors.{AreFactorsOf, AreRegionFactors};
ghost use Rattle.named_equations.specs.Within.{IsRegion, IsTechnology};
ghost use Rattle.named_equations.specs.WrittenFactors.{life_of};
ghost use Rattle.param_tables.specs.Built.{AreComplete};

use discount_factors::Factors;
use equation_parts::whole_numbers::{discount_rate, operational_life};
use model_sets::set_numbers::{REGION, TECHNOLOGY, YEAR};
use param_tables::ModelData;
use std::alloc::{AllocError, Global};

/// The factors of each region, in order, with 6 or 9 decimal places: they are those of its DiscountRate, for the
/// years of the model period and for the lives of its technologies. Fails only where memory runs out.
pub(crate) fn region_factors(
    alloc: Global,
    model: &ModelData,
    places: u8,
) -> Result<Vec<Factors>, AllocError>
    requires places { IsPlaces places }
    ensures factors { IfOk result (λ factors. AreRegionFactors places model.now.facts factors.items) }
    ensures complete { AreComplete model.now.facts }
{
    let mut factors = Vec::new(alloc);
    for region in 0..model.sets().count(REGION) {
        let one = factors_of(alloc, model, region, places)?;
        factors.push(one)?;
    }
    Ok(factors)
}

/// The factors of a region.
fn factors_of(
    alloc: Global,
    model: &ModelData,
    region: u16,
    places: u8,
) -> Result<Factors, AllocError>
    requires region { IsRegion model.now.facts region }
    requires places { IsPlaces places }
    ensures { IfOk result (λ factors. AreFactorsOf places model.now.facts region factors) }
{
    let rate = discount_rate(model, region);
    let span = years_in_all(model);
    let lives = longest_life(model, region);
    Factors::new(alloc, rate, span, lives, places)
}

/// How many years the model period has, from the first year to the last, gaps included; 1 where there is no
/// year.
fn years_in_all(model: &ModelData) -> u16
    ensures { result ≡ years_in_all model.now.facts }
{
    let sets = model.sets();
    if sets.count(YEAR) == 0 {
        return 1;
    }
    sets.last_year() - sets.first_year() + 1
}

/// The longest life of a technology in a region, in years.
fn longest_life(model: &ModelData, region: u16) -> u16
    requires { IsRegion model.now.facts region }
    ensures { (t : ℕ) → IsTechnology model.now.facts t → life_of model.now.facts region t ≤ result }
{
    let mut longest = 0;
    for technology in 0..model.sets().count(TECHNOLOGY) {
        longest = longest.max(operational_life(model, region, technology));
    }
    longest
}
