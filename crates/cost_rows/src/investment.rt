//! Capital investment.

ghost use Rattle.std.specs.Prelude.{◌≡◌};
ghost use Rattle.row_core.specs.Calculated.{known, number_of};
ghost use Rattle.row_core.specs.EquationTerms.{IsWritten};
ghost use Rattle.named_equations.specs.Indices.{by_rty};
ghost use Rattle.named_equations.specs.RegionFactors.{AreRegionFactors, places_of};
ghost use Rattle.named_equations.specs.Within.{IsRegion, IsTechnology, IsYear};
ghost use Rattle.cost_rows.specs.Costs.{cc1, cc2, investment_in_unit};

use discount_factors::Factors;
use equation_parts::factors::{annuity, capital_factor, recovery_factor};
use equation_parts::parameters::value;
use equation_parts::shapes::is_times;
use equation_parts::{index, variable};
use exact_num::Frac;
use model_sets::param_numbers::CAPITAL_COST;
use param_tables::ModelData;
use row_core::kind_numbers::{CAPITAL_INVESTMENT, DISCOUNTED_CAPITAL_INVESTMENT, NEW_CAPACITY};
use row_core::{Index, Row, RowName, Stopped, Var, times};
use std::alloc::Global;

/// The investment in a unit of capacity that is built in the year: its capital cost, and under profile 2 that times the
/// recovery factor and the annuity of the technology's life.
fn investment_in_unit(
    model: &ModelData,
    factors: &[Factors],
    r: u16,
    t: u16,
    y: u16,
) -> Option<Frac>
    requires factors { AreRegionFactors (places_of factors.now) model.now.facts factors.now }
    requires region { IsRegion model.now.facts r }
    requires technology { IsTechnology model.now.facts t }
    requires year { IsYear model.now.facts y }
    ensures { known result ≡ number_of (investment_in_unit (places_of factors.now) model.now.facts r t y) }
{
    let cost = value(model, CAPITAL_COST, &[r, t, y]);
    if !model.second() {
        return cost;
    }
    let yearly = times(cost, recovery_factor(model, factors, r, t));
    times(yearly, annuity(model, factors, r, t))
}

/// CC1: the investment is what is built times the investment in a unit.
pub(crate) fn cc1(
    alloc: Global,
    model: &ModelData,
    factors: &[Factors],
    name: RowName,
) -> Result<Row, Stopped>
    requires factors { AreRegionFactors (places_of factors.now) model.now.facts factors.now }
    requires region { IsRegion model.now.facts name.index.region }
    requires technology { IsTechnology model.now.facts name.index.tech }
    requires year { IsYear model.now.facts name.index.year }
    ensures { IsWritten name (by_rty (cc1 (places_of factors.now) model.now.facts) name.index) result }
{
    let index!(region r, tech t, year y) = name.index;
    is_times(
        alloc,
        name,
        variable!(CAPITAL_INVESTMENT; region r, tech t, year y),
        variable!(NEW_CAPACITY; region r, tech t, year y),
        investment_in_unit(model, factors, r, t, y),
    )
}

/// CC2: the discounted investment is the investment times the capital factor of its year.
pub(crate) fn cc2(
    alloc: Global,
    model: &ModelData,
    factors: &[Factors],
    name: RowName,
) -> Result<Row, Stopped>
    requires factors { AreRegionFactors (places_of factors.now) model.now.facts factors.now }
    requires region { IsRegion model.now.facts name.index.region }
    requires year { IsYear model.now.facts name.index.year }
    ensures { IsWritten name (by_rty (cc2 (places_of factors.now) model.now.facts) name.index) result }
{
    let index!(region r, tech t, year y) = name.index;
    is_times(
        alloc,
        name,
        variable!(DISCOUNTED_CAPITAL_INVESTMENT; region r, tech t, year y),
        variable!(CAPITAL_INVESTMENT; region r, tech t, year y),
        capital_factor(model, factors, r, y),
    )
}
