//! The equation of demand.

ghost use Rattle.std.specs.Prelude.{pos, ◌<ℤ◌};
ghost use Rattle.row_core.specs.EquationTerms.{IsWritten};
ghost use Rattle.named_equations.specs.Indices.{by_rlfy};
ghost use Rattle.named_equations.specs.Parameters.{year_split};
ghost use Rattle.named_equations.specs.Within.{IsRegion, IsSlice, IsFuel, IsYear};
ghost use Rattle.balance_rows.specs.Balance.{eq_specified_demand};

use equation_parts::parameters::{value, year_split};
use equation_parts::{index, variable};
use model_sets::param_numbers::{SPECIFIED_ANNUAL_DEMAND, SPECIFIED_DEMAND_PROFILE};
use param_tables::ModelData;
use row_core::kind_numbers::RATE_OF_DEMAND;
use row_core::{Index, LeftSide, Row, RowName, Sense, Stopped, Var, times};
use std::alloc::Global;

/// EQ_SpecifiedDemand: the part of the year times the rate of demand is the part of the annual demand.
pub(crate) fn eq_specified_demand(
    alloc: Global,
    model: &ModelData,
    name: RowName,
) -> Result<Row, Stopped>
    requires region { IsRegion model.now.facts name.index.region }
    requires slice { IsSlice model.now.facts name.index.slice }
    requires fuel { IsFuel model.now.facts name.index.fuel }
    requires year { IsYear model.now.facts name.index.year }
    ensures written { IsWritten name (by_rlfy (eq_specified_demand model.now.facts) name.index) result }
    ensures positive { pos 0 <ℤ year_split model.now.facts name.index.slice name.index.year }
{
    let index!(region r, slice l, fuel f, year y) = name.index;
    let mut left = LeftSide::new(alloc, name);
    let rate = variable!(RATE_OF_DEMAND; region r, slice l, fuel f, year y);
    left.add(rate, year_split(model, l, y))?;
    let demand = times(
        value(model, SPECIFIED_ANNUAL_DEMAND, &[r, f, y]),
        value(model, SPECIFIED_DEMAND_PROFILE, &[r, f, l, y]),
    );
    left.write(alloc, Sense::Equal, demand)
}
