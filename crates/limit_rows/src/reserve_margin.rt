//! The reserve margin: tagged capacity covers tagged production with a margin, in each timeslice.

ghost use Rattle.std.specs.Prelude.{◌≡◌};
ghost use Rattle.row_core.specs.Amounts.{Billionths, Negative};
ghost use Rattle.row_core.specs.Calculated.{known, number_of};
ghost use Rattle.row_core.specs.EquationTerms.{IsWritten};
ghost use Rattle.row_core.specs.Repeated.{IsTerm};
ghost use Rattle.named_equations.specs.Indices.{by_rly, by_ry};
ghost use Rattle.named_equations.specs.Parameters.{reserve_margin_tag_fuel};
ghost use Rattle.named_equations.specs.Variables.{rate_of_production, total_capacity_annual};
ghost use Rattle.named_equations.specs.Within.{IsRegion, IsTechnology, IsFuel, IsYear};
ghost use Rattle.limit_rows.specs.ReserveMargin.{rm1, rm2, rm3, unit_in_margin};

use equation_parts::parameters::value;
use equation_parts::shapes::is_covered;
use equation_parts::{index, variable};
use exact_num::Frac;
use model_sets::param_numbers::{
    CAPACITY_TO_ACTIVITY_UNIT, RESERVE_MARGIN, RESERVE_MARGIN_TAG_FUEL,
    RESERVE_MARGIN_TAG_TECHNOLOGY,
};
use model_sets::set_numbers::{FUEL, TECHNOLOGY};
use param_tables::ModelData;
use row_core::kind_numbers::{
    DEMAND_NEEDING_RESERVE_MARGIN, RATE_OF_PRODUCTION, TOTAL_CAPACITY_ANNUAL,
    TOTAL_CAPACITY_IN_RESERVE_MARGIN,
};
use row_core::{Index, LeftSide, Row, RowName, Sense, Stopped, Var, negative, one, times, zero};
use std::alloc::Global;

/// RM1: the capacity in the margin is the sum over the technologies of what their capacity adds.
pub(crate) fn rm1(alloc: Global, model: &ModelData, name: RowName) -> Result<Row, Stopped>
    requires region { IsRegion model.now.facts name.index.region }
    requires year { IsYear model.now.facts name.index.year }
    ensures { IsWritten name (by_ry (rm1 model.now.facts) name.index) result }
{
    let index!(region r, year y) = name.index;
    let mut left = LeftSide::new(alloc, name);
    let own = variable!(TOTAL_CAPACITY_IN_RESERVE_MARGIN; region r, year y);
    left.add(own, one())?;
    left.add_each(
        model.sets().count(TECHNOLOGY),
        |t|
            requires region { IsRegion model.now.facts r }
            requires technology { IsTechnology model.now.facts t }
            requires year { IsYear model.now.facts y }
            ensures { IsTerm (total_capacity_annual r t y, Negative (unit_in_margin model.entry.now.facts r t y)) result }
        {
            (
                variable!(TOTAL_CAPACITY_ANNUAL; region r, tech t, year y),
                negative(unit_in_margin(model, r, t, y)),
            )
        },
    )?;
    left.write(alloc, Sense::Equal, zero())
}

/// What a unit of a technology's capacity adds to the margin.
fn unit_in_margin(model: &ModelData, r: u16, t: u16, y: u16) -> Option<Frac>
    requires region { IsRegion model.now.facts r }
    requires technology { IsTechnology model.now.facts t }
    requires year { IsYear model.now.facts y }
    ensures { known result ≡ number_of (unit_in_margin model.now.facts r t y) }
{
    times(
        value(model, RESERVE_MARGIN_TAG_TECHNOLOGY, &[r, t, y]),
        value(model, CAPACITY_TO_ACTIVITY_UNIT, &[r, t]),
    )
}

/// RM2: the demand that needs the margin is the sum over the fuels of the rate of production times the fuel's tag.
pub(crate) fn rm2(alloc: Global, model: &ModelData, name: RowName) -> Result<Row, Stopped>
    requires region { IsRegion model.now.facts name.index.region }
    requires year { IsYear model.now.facts name.index.year }
    ensures { IsWritten name (by_rly (rm2 model.now.facts) name.index) result }
{
    let index!(region r, slice l, year y) = name.index;
    let mut left = LeftSide::new(alloc, name);
    let own = variable!(DEMAND_NEEDING_RESERVE_MARGIN; region r, slice l, year y);
    left.add(own, one())?;
    left.add_each(
        model.sets().count(FUEL),
        |f|
            requires region { IsRegion model.now.facts r }
            requires fuel { IsFuel model.now.facts f }
            requires year { IsYear model.now.facts y }
            ensures { IsTerm (rate_of_production r l f y, Negative (Billionths (reserve_margin_tag_fuel model.entry.now.facts r f y))) result }
        {
            (
                variable!(RATE_OF_PRODUCTION; region r, slice l, fuel f, year y),
                negative(value(model, RESERVE_MARGIN_TAG_FUEL, &[r, f, y])),
            )
        },
    )?;
    left.write(alloc, Sense::Equal, zero())
}

/// RM3: the demand that needs the margin, times the margin, is at most the capacity in the margin.
pub(crate) fn rm3(alloc: Global, model: &ModelData, name: RowName) -> Result<Row, Stopped>
    requires region { IsRegion model.now.facts name.index.region }
    requires year { IsYear model.now.facts name.index.year }
    ensures { IsWritten name (by_rly (rm3 model.now.facts) name.index) result }
{
    let index!(region r, slice l, year y) = name.index;
    is_covered(
        alloc,
        name,
        variable!(DEMAND_NEEDING_RESERVE_MARGIN; region r, slice l, year y),
        value(model, RESERVE_MARGIN, &[r, y]),
        variable!(TOTAL_CAPACITY_IN_RESERVE_MARGIN; region r, year y),
    )
}
