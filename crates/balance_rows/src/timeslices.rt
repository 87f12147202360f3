//! The energy balance of each timeslice.

ghost use Rattle.row_core.specs.Amounts.{Billionths, Negative};
ghost use Rattle.row_core.specs.Repeated.{IsTerm};
ghost use Rattle.named_equations.specs.Parameters.{trade_route};
ghost use Rattle.named_equations.specs.Variables.{trade};
ghost use Rattle.row_core.specs.EquationTerms.{IsWritten};
ghost use Rattle.named_equations.specs.Indices.{by_rlfy, by_rrrlfy};
ghost use Rattle.named_equations.specs.Within.{IsRegion, IsSlice, IsFuel, IsYear};
ghost use Rattle.balance_rows.specs.Balance.{fuel_in_slice, eba10, eba11};

use equation_parts::parameters::{value, year_split};
use equation_parts::shapes::is_times;
use equation_parts::{index, variable};
use model_sets::param_numbers::TRADE_ROUTE;
use model_sets::set_numbers::REGION;
use param_tables::ModelData;
use row_core::kind_numbers::{DEMAND, PRODUCTION, TRADE, USE};
use row_core::{
    Index, LeftSide, Row, RowName, Sense, Stopped, Var, minus_one, negative, one, zero,
};
use std::alloc::Global;

/// EBa7, EBa8 and EBa9: production, use or demand, the variable of this kind, is its rate times the part of the year.
pub(crate) fn fuel_in_slice(
    alloc: Global,
    model: &ModelData,
    name: RowName,
    kind: u8,
    rate: u8,
) -> Result<Row, Stopped>
    requires slice { IsSlice model.now.facts name.index.slice }
    requires year { IsYear model.now.facts name.index.year }
    ensures { IsWritten name (by_rlfy (fuel_in_slice kind rate model.now.facts) name.index) result }
{
    let index!(region r, slice l, fuel f, year y) = name.index;
    is_times(
        alloc,
        name,
        variable!(kind; region r, slice l, fuel f, year y),
        variable!(rate; region r, slice l, fuel f, year y),
        year_split(model, l, y),
    )
}

/// EBa10: what one region gives another is the negative of what it gets from it.
pub(crate) fn eba10(alloc: Global, _model: &ModelData, name: RowName) -> Result<Row, Stopped>
    ensures { IsWritten name (by_rrrlfy (eba10 _model.now.facts) name.index) result }
{
    let index!(region r, other rr, slice l, fuel f, year y) = name.index;
    let mut left = LeftSide::new(alloc, name);
    let there = variable!(TRADE; region r, other rr, slice l, fuel f, year y);
    left.add(there, one())?;
    let back = variable!(TRADE; region rr, other r, slice l, fuel f, year y);
    left.add(back, one())?;
    left.write(alloc, Sense::Equal, zero())
}

/// EBa11: production covers demand, use, and the trade along the routes out of the region.
pub(crate) fn eba11(alloc: Global, model: &ModelData, name: RowName) -> Result<Row, Stopped>
    requires region { IsRegion model.now.facts name.index.region }
    requires fuel { IsFuel model.now.facts name.index.fuel }
    requires year { IsYear model.now.facts name.index.year }
    ensures { IsWritten name (by_rlfy (eba11 model.now.facts) name.index) result }
{
    let index!(region r, slice l, fuel f, year y) = name.index;
    let mut left = LeftSide::new(alloc, name);
    let production = variable!(PRODUCTION; region r, slice l, fuel f, year y);
    left.add(production, one())?;
    let demand = variable!(DEMAND; region r, slice l, fuel f, year y);
    left.add(demand, minus_one())?;
    let used = variable!(USE; region r, slice l, fuel f, year y);
    left.add(used, minus_one())?;
    left.add_each(
        model.sets().count(REGION),
        |rr|
            requires region { IsRegion model.now.facts r }
            requires other { IsRegion model.now.facts rr }
            requires fuel { IsFuel model.now.facts f }
            requires year { IsYear model.now.facts y }
            ensures { IsTerm (trade r rr l f y, Negative (Billionths (trade_route model.entry.now.facts r rr f y))) result }
        {
            (
                variable!(TRADE; region r, other rr, slice l, fuel f, year y),
                negative(value(model, TRADE_ROUTE, &[r, rr, f, y])),
            )
        },
    )?;
    left.write(alloc, Sense::Least, zero())
}
