//! The energy balance of each year.

ghost use Rattle.row_core.specs.Amounts.{Billionths, Negative};
ghost use Rattle.row_core.specs.Repeated.{IsTerm};
ghost use Rattle.named_equations.specs.Parameters.{trade_route};
ghost use Rattle.named_equations.specs.Variables.{trade_annual};
ghost use Rattle.row_core.specs.EquationTerms.{IsWritten};
ghost use Rattle.named_equations.specs.Indices.{by_rfy, by_rrrfy};
ghost use Rattle.named_equations.specs.Within.{IsRegion, IsFuel, IsYear};
ghost use Rattle.balance_rows.specs.Balance.{fuel_in_year, ebb3, ebb4};

use equation_parts::parameters::value;
use equation_parts::{index, variable};
use model_sets::param_numbers::{ACCUMULATED_ANNUAL_DEMAND, TRADE_ROUTE};
use model_sets::set_numbers::{REGION, TIMESLICE};
use param_tables::ModelData;
use row_core::kind_numbers::{PRODUCTION_ANNUAL, TRADE, TRADE_ANNUAL, USE_ANNUAL};
use row_core::{
    Index, LeftSide, Row, RowName, Sense, Stopped, Var, minus_one, negative, one, zero,
};
use std::alloc::Global;

/// EBb1 and EBb2: the annual production or use, the variable of this kind, is that of the timeslices.
pub(crate) fn fuel_in_year(
    alloc: Global,
    model: &ModelData,
    name: RowName,
    kind: u8,
    part: u8,
) -> Result<Row, Stopped>
    ensures { IsWritten name (by_rfy (fuel_in_year kind part model.now.facts) name.index) result }
{
    let index!(region r, fuel f, year y) = name.index;
    let mut left = LeftSide::new(alloc, name);
    left.add(variable!(kind; region r, fuel f, year y), one())?;
    left.add_each(
        model.sets().count(TIMESLICE),
        |l| (
            variable!(part; region r, slice l, fuel f, year y),
            minus_one(),
        ),
    )?;
    left.write(alloc, Sense::Equal, zero())
}

/// EBb3: the annual trade is that of the timeslices.
pub(crate) fn ebb3(alloc: Global, model: &ModelData, name: RowName) -> Result<Row, Stopped>
    ensures { IsWritten name (by_rrrfy (ebb3 model.now.facts) name.index) result }
{
    let index!(region r, other rr, fuel f, year y) = name.index;
    let mut left = LeftSide::new(alloc, name);
    let own = variable!(TRADE_ANNUAL; region r, other rr, fuel f, year y);
    left.add(own, one())?;
    left.add_each(
        model.sets().count(TIMESLICE),
        |l| (
            variable!(TRADE; region r, other rr, slice l, fuel f, year y),
            minus_one(),
        ),
    )?;
    left.write(alloc, Sense::Equal, zero())
}

/// EBb4: the annual production covers the annual use, the trade along the routes out of the region, and the accumulated demand.
pub(crate) fn ebb4(alloc: Global, model: &ModelData, name: RowName) -> Result<Row, Stopped>
    requires region { IsRegion model.now.facts name.index.region }
    requires fuel { IsFuel model.now.facts name.index.fuel }
    requires year { IsYear model.now.facts name.index.year }
    ensures { IsWritten name (by_rfy (ebb4 model.now.facts) name.index) result }
{
    let index!(region r, fuel f, year y) = name.index;
    let mut left = LeftSide::new(alloc, name);
    let production = variable!(PRODUCTION_ANNUAL; region r, fuel f, year y);
    left.add(production, one())?;
    left.add(variable!(USE_ANNUAL; region r, fuel f, year y), minus_one())?;
    left.add_each(
        model.sets().count(REGION),
        |rr|
            requires region { IsRegion model.now.facts r }
            requires other { IsRegion model.now.facts rr }
            requires fuel { IsFuel model.now.facts f }
            requires year { IsYear model.now.facts y }
            ensures { IsTerm (trade_annual r rr f y, Negative (Billionths (trade_route model.entry.now.facts r rr f y))) result }
        {
            (
                variable!(TRADE_ANNUAL; region r, other rr, fuel f, year y),
                negative(value(model, TRADE_ROUTE, &[r, rr, f, y])),
            )
        },
    )?;
    left.write(
        alloc,
        Sense::Least,
        value(model, ACCUMULATED_ANNUAL_DEMAND, &[r, f, y]),
    )
}
