//! Operating cost.

ghost use Rattle.row_core.specs.Amounts.{Billionths, Negative};
ghost use Rattle.row_core.specs.EquationTerms.{IsWritten};
ghost use Rattle.row_core.specs.Repeated.{IsTerm};
ghost use Rattle.named_equations.specs.Indices.{by_rty};
ghost use Rattle.named_equations.specs.Parameters.{variable_cost};
ghost use Rattle.named_equations.specs.RegionFactors.{AreRegionFactors, places_of};
ghost use Rattle.named_equations.specs.Variables.{total_annual_technology_activity_by_mode};
ghost use Rattle.named_equations.specs.Within.{IsRegion, IsTechnology, IsMode, IsYear};
ghost use Rattle.cost_rows.specs.Costs.{oc1, oc2, oc3, oc4};

use discount_factors::Factors;
use equation_parts::factors::operating_factor;
use equation_parts::parameters::value;
use equation_parts::shapes::is_times;
use equation_parts::{index, variable};
use model_sets::param_numbers::{FIXED_COST, VARIABLE_COST};
use model_sets::set_numbers::MODE_OF_OPERATION;
use param_tables::ModelData;
use row_core::kind_numbers::{
    ANNUAL_FIXED_OPERATING_COST, ANNUAL_VARIABLE_OPERATING_COST, DISCOUNTED_OPERATING_COST,
    OPERATING_COST, TOTAL_ANNUAL_TECHNOLOGY_ACTIVITY_BY_MODE, TOTAL_CAPACITY_ANNUAL,
};
use row_core::{
    Index, LeftSide, Row, RowName, Sense, Stopped, Var, minus_one, negative, one, zero,
};
use std::alloc::Global;

/// OC1: the variable cost is the sum over the modes of their activity times its cost.
pub(crate) fn oc1(alloc: Global, model: &ModelData, name: RowName) -> Result<Row, Stopped>
    requires region { IsRegion model.now.facts name.index.region }
    requires technology { IsTechnology model.now.facts name.index.tech }
    requires year { IsYear model.now.facts name.index.year }
    ensures { IsWritten name (by_rty (oc1 model.now.facts) name.index) result }
{
    let index!(region r, tech t, year y) = name.index;
    let mut left = LeftSide::new(alloc, name);
    let running = variable!(ANNUAL_VARIABLE_OPERATING_COST; region r, tech t, year y);
    left.add(running, one())?;
    left.add_each(
        model.sets().count(MODE_OF_OPERATION),
        |m|
            requires region { IsRegion model.now.facts r }
            requires technology { IsTechnology model.now.facts t }
            requires mode { IsMode model.now.facts m }
            requires year { IsYear model.now.facts y }
            ensures { IsTerm (total_annual_technology_activity_by_mode r t m y, Negative (Billionths (variable_cost model.entry.now.facts r t m y))) result }
        {
            (
                variable!(TOTAL_ANNUAL_TECHNOLOGY_ACTIVITY_BY_MODE; region r, tech t, mode m, year y),
                negative(value(model, VARIABLE_COST, &[r, t, m, y])),
            )
        },
    )?;
    left.write(alloc, Sense::Equal, zero())
}

/// OC2: the fixed cost is the total capacity times its cost.
pub(crate) fn oc2(alloc: Global, model: &ModelData, name: RowName) -> Result<Row, Stopped>
    requires region { IsRegion model.now.facts name.index.region }
    requires technology { IsTechnology model.now.facts name.index.tech }
    requires year { IsYear model.now.facts name.index.year }
    ensures { IsWritten name (by_rty (oc2 model.now.facts) name.index) result }
{
    let index!(region r, tech t, year y) = name.index;
    is_times(
        alloc,
        name,
        variable!(ANNUAL_FIXED_OPERATING_COST; region r, tech t, year y),
        variable!(TOTAL_CAPACITY_ANNUAL; region r, tech t, year y),
        value(model, FIXED_COST, &[r, t, y]),
    )
}

/// OC3: the operating cost is the variable and the fixed cost.
pub(crate) fn oc3(alloc: Global, model: &ModelData, name: RowName) -> Result<Row, Stopped>
    ensures { IsWritten name (by_rty (oc3 model.now.facts) name.index) result }
{
    let index!(region r, tech t, year y) = name.index;
    let mut left = LeftSide::new(alloc, name);
    left.add(variable!(OPERATING_COST; region r, tech t, year y), one())?;
    let running = variable!(ANNUAL_VARIABLE_OPERATING_COST; region r, tech t, year y);
    left.add(running, minus_one())?;
    let fixed = variable!(ANNUAL_FIXED_OPERATING_COST; region r, tech t, year y);
    left.add(fixed, minus_one())?;
    left.write(alloc, Sense::Equal, zero())
}

/// OC4: the discounted operating cost is the operating cost times the operating factor of its year.
pub(crate) fn oc4(
    alloc: Global,
    model: &ModelData,
    factors: &[Factors],
    name: RowName,
) -> Result<Row, Stopped>
    requires factors { AreRegionFactors (places_of factors.now) model.now.facts factors.now }
    requires region { IsRegion model.now.facts name.index.region }
    requires year { IsYear model.now.facts name.index.year }
    ensures { IsWritten name (by_rty (oc4 (places_of factors.now) model.now.facts) name.index) result }
{
    let index!(region r, tech t, year y) = name.index;
    is_times(
        alloc,
        name,
        variable!(DISCOUNTED_OPERATING_COST; region r, tech t, year y),
        variable!(OPERATING_COST; region r, tech t, year y),
        operating_factor(model, factors, r, y),
    )
}
