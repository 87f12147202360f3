//! Accounting of production, use and activity.

ghost use Rattle.row_core.specs.Amounts.{Billionths, Negative};
ghost use Rattle.row_core.specs.Repeated.{IsTerm};
ghost use Rattle.named_equations.specs.Parameters.{year_split};
ghost use Rattle.named_equations.specs.Variables.{rate_of_activity};
ghost use Rattle.row_core.specs.EquationTerms.{IsWritten};
ghost use Rattle.named_equations.specs.Indices.{by_rltfy, by_rtmy};
ghost use Rattle.named_equations.specs.Within.{IsSlice, IsYear};
ghost use Rattle.balance_rows.specs.Balance.{acc1, acc2, acc3};

use equation_parts::parameters::year_split;
use equation_parts::shapes::is_times;
use equation_parts::{index, variable};
use model_sets::set_numbers::TIMESLICE;
use param_tables::ModelData;
use row_core::kind_numbers::{
    PRODUCTION_BY_TECHNOLOGY, RATE_OF_ACTIVITY, RATE_OF_PRODUCTION_BY_TECHNOLOGY,
    RATE_OF_USE_BY_TECHNOLOGY, TOTAL_ANNUAL_TECHNOLOGY_ACTIVITY_BY_MODE, USE_BY_TECHNOLOGY,
};
use row_core::{Index, LeftSide, Row, RowName, Sense, Stopped, Var, negative, one, zero};
use std::alloc::Global;

/// Acc1: the production of a technology is its rate times the part of the year.
pub(crate) fn acc1(alloc: Global, model: &ModelData, name: RowName) -> Result<Row, Stopped>
    requires slice { IsSlice model.now.facts name.index.slice }
    requires year { IsYear model.now.facts name.index.year }
    ensures { IsWritten name (by_rltfy (acc1 model.now.facts) name.index) result }
{
    let index!(region r, slice l, tech t, fuel f, year y) = name.index;
    is_times(
        alloc,
        name,
        variable!(PRODUCTION_BY_TECHNOLOGY; region r, slice l, tech t, fuel f, year y),
        variable!(RATE_OF_PRODUCTION_BY_TECHNOLOGY; region r, slice l, tech t, fuel f, year y),
        year_split(model, l, y),
    )
}

/// Acc2: the use of a technology is its rate times the part of the year.
pub(crate) fn acc2(alloc: Global, model: &ModelData, name: RowName) -> Result<Row, Stopped>
    requires slice { IsSlice model.now.facts name.index.slice }
    requires year { IsYear model.now.facts name.index.year }
    ensures { IsWritten name (by_rltfy (acc2 model.now.facts) name.index) result }
{
    let index!(region r, slice l, tech t, fuel f, year y) = name.index;
    is_times(
        alloc,
        name,
        variable!(USE_BY_TECHNOLOGY; region r, slice l, tech t, fuel f, year y),
        variable!(RATE_OF_USE_BY_TECHNOLOGY; region r, slice l, tech t, fuel f, year y),
        year_split(model, l, y),
    )
}

/// Acc3: the annual activity of a mode is the sum over the timeslices of its rate times their parts of the year.
pub(crate) fn acc3(alloc: Global, model: &ModelData, name: RowName) -> Result<Row, Stopped>
    requires year { IsYear model.now.facts name.index.year }
    ensures { IsWritten name (by_rtmy (acc3 model.now.facts) name.index) result }
{
    let index!(region r, tech t, mode m, year y) = name.index;
    let mut left = LeftSide::new(alloc, name);
    let own = variable!(TOTAL_ANNUAL_TECHNOLOGY_ACTIVITY_BY_MODE; region r, tech t, mode m, year y);
    left.add(own, one())?;
    left.add_each(
        model.sets().count(TIMESLICE),
        |l|
            requires slice { IsSlice model.now.facts l }
            requires year { IsYear model.now.facts y }
            ensures { IsTerm (rate_of_activity r l t m y, Negative (Billionths (year_split model.entry.now.facts l y))) result }
        {
            (
                variable!(RATE_OF_ACTIVITY; region r, slice l, tech t, mode m, year y),
                negative(year_split(model, l, y)),
            )
        },
    )?;
    left.write(alloc, Sense::Equal, zero())
}
