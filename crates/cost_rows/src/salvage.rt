//! Salvage value: what an investment is still worth when the last year is over.

ghost use Rattle.std.specs.Prelude.{◌≡◌, ◌≤◌, true};
ghost use Rattle.row_core.specs.Calculated.{known, number_of};
ghost use Rattle.row_core.specs.EquationTerms.{IsWritten};
ghost use Rattle.named_equations.specs.Indices.{by_rty};
ghost use Rattle.named_equations.specs.RegionFactors.{AreRegionFactors, places_of};
ghost use Rattle.named_equations.specs.Salvage.{outlasts};
ghost use Rattle.named_equations.specs.Within.{IsRegion, IsTechnology, IsYear};
ghost use Rattle.cost_rows.specs.Costs.{salvage_by_method, salvage_value_of_unit, sv3, sv4};

use discount_factors::Factors;
use equation_parts::factors::{final_capital_factor, salvage_fraction};
use equation_parts::parameters::value;
use equation_parts::shapes::is_times;
use equation_parts::{index, variable};
use exact_num::Frac;
use model_sets::param_numbers::CAPITAL_COST;
use param_tables::ModelData;
use row_core::kind_numbers::{DISCOUNTED_SALVAGE_VALUE, NEW_CAPACITY, SALVAGE_VALUE};
use row_core::{Index, LeftSide, Row, RowName, Sense, Stopped, Var, one, times, zero};
use std::alloc::Global;

/// The salvage value of a unit of capacity that is built in the year, by this method of depreciation.
fn salvage_value_of_unit(
    model: &ModelData,
    factors: &[Factors],
    method: u8,
    r: u16,
    t: u16,
    y: u16,
) -> Option<Frac>
    requires factors { AreRegionFactors (places_of factors.now) model.now.facts factors.now }
    requires method_least { 1 ≤ method }
    requires method_most { method ≤ 2 }
    requires region { IsRegion model.now.facts r }
    requires technology { IsTechnology model.now.facts t }
    requires year { IsYear model.now.facts y }
    requires outlasts { outlasts model.now.facts r t y ≡ true }
    ensures { known result ≡ number_of (salvage_value_of_unit (places_of factors.now) model.now.facts method r t y) }
{
    times(
        value(model, CAPITAL_COST, &[r, t, y]),
        salvage_fraction(model, factors, method, r, t, y),
    )
}

/// SV1 and SV2: the salvage value is what this method of depreciation leaves of what is built.
pub(crate) fn salvage_by_method(
    alloc: Global,
    model: &ModelData,
    factors: &[Factors],
    name: RowName,
    method: u8,
) -> Result<Row, Stopped>
    requires factors { AreRegionFactors (places_of factors.now) model.now.facts factors.now }
    requires method_least { 1 ≤ method }
    requires method_most { method ≤ 2 }
    requires region { IsRegion model.now.facts name.index.region }
    requires technology { IsTechnology model.now.facts name.index.tech }
    requires year { IsYear model.now.facts name.index.year }
    requires outlasts { by_rty (outlasts model.now.facts) name.index ≡ true }
    ensures { IsWritten name (by_rty (salvage_by_method (places_of factors.now) model.now.facts method) name.index) result }
{
    let index!(region r, tech t, year y) = name.index;
    is_times(
        alloc,
        name,
        variable!(SALVAGE_VALUE; region r, tech t, year y),
        variable!(NEW_CAPACITY; region r, tech t, year y),
        salvage_value_of_unit(model, factors, method, r, t, y),
    )
}

/// SV3: nothing is left.
pub(crate) fn sv3(alloc: Global, model: &ModelData, name: RowName) -> Result<Row, Stopped>
    ensures { IsWritten name (by_rty (sv3 model.now.facts) name.index) result }
{
    let index!(region r, tech t, year y) = name.index;
    let mut left = LeftSide::new(alloc, name);
    left.add(variable!(SALVAGE_VALUE; region r, tech t, year y), one())?;
    left.write(alloc, Sense::Equal, zero())
}

/// SV4: the discounted salvage value is the salvage value times the capital factor of the whole model period.
pub(crate) fn sv4(
    alloc: Global,
    model: &ModelData,
    factors: &[Factors],
    name: RowName,
) -> Result<Row, Stopped>
    requires factors { AreRegionFactors (places_of factors.now) model.now.facts factors.now }
    requires region { IsRegion model.now.facts name.index.region }
    requires year { IsYear model.now.facts name.index.year }
    ensures { IsWritten name (by_rty (sv4 (places_of factors.now) model.now.facts) name.index) result }
{
    let index!(region r, tech t, year y) = name.index;
    is_times(
        alloc,
        name,
        variable!(DISCOUNTED_SALVAGE_VALUE; region r, tech t, year y),
        variable!(SALVAGE_VALUE; region r, tech t, year y),
        final_capital_factor(model, factors, r),
    )
}
