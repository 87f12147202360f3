//! The activity that is limited: that of each year, and that of the whole model period.

ghost use Rattle.row_core.specs.Amounts.{Billionths, Negative};
ghost use Rattle.row_core.specs.EquationTerms.{IsWritten};
ghost use Rattle.row_core.specs.Repeated.{IsTerm};
ghost use Rattle.named_equations.specs.Indices.{by_rt, by_rty};
ghost use Rattle.named_equations.specs.Parameters.{year_split};
ghost use Rattle.named_equations.specs.Variables.{rate_of_total_activity};
ghost use Rattle.named_equations.specs.Within.{IsSlice, IsYear};
ghost use Rattle.limit_rows.specs.Limits.{aac1, tac1};

use equation_parts::parameters::year_split;
use equation_parts::{index, variable};
use model_sets::set_numbers::{TIMESLICE, YEAR};
use param_tables::ModelData;
use row_core::kind_numbers::{
    RATE_OF_TOTAL_ACTIVITY, TOTAL_TECHNOLOGY_ANNUAL_ACTIVITY,
    TOTAL_TECHNOLOGY_MODEL_PERIOD_ACTIVITY,
};
use row_core::{
    Index, LeftSide, Row, RowName, Sense, Stopped, Var, minus_one, negative, one, zero,
};
use std::alloc::Global;

/// AAC1: the activity in a year is the sum over the timeslices of its rate times their parts of the year.
pub(crate) fn aac1(alloc: Global, model: &ModelData, name: RowName) -> Result<Row, Stopped>
    requires year { IsYear model.now.facts name.index.year }
    ensures { IsWritten name (by_rty (aac1 model.now.facts) name.index) result }
{
    let index!(region r, tech t, year y) = name.index;
    let mut left = LeftSide::new(alloc, name);
    let own = variable!(TOTAL_TECHNOLOGY_ANNUAL_ACTIVITY; region r, tech t, year y);
    left.add(own, one())?;
    left.add_each(
        model.sets().count(TIMESLICE),
        |l|
            requires slice { IsSlice model.now.facts l }
            requires year { IsYear model.now.facts y }
            ensures { IsTerm (rate_of_total_activity r l t y, Negative (Billionths (year_split model.entry.now.facts l y))) result }
        {
            (
                variable!(RATE_OF_TOTAL_ACTIVITY; region r, slice l, tech t, year y),
                negative(year_split(model, l, y)),
            )
        },
    )?;
    left.write(alloc, Sense::Equal, zero())
}

/// TAC1: the activity of the model period is that of its years.
pub(crate) fn tac1(alloc: Global, model: &ModelData, name: RowName) -> Result<Row, Stopped>
    ensures { IsWritten name (by_rt (tac1 model.now.facts) name.index) result }
{
    let index!(region r, tech t) = name.index;
    let mut left = LeftSide::new(alloc, name);
    let own = variable!(TOTAL_TECHNOLOGY_MODEL_PERIOD_ACTIVITY; region r, tech t);
    left.add(own, one())?;
    left.add_each(
        model.sets().count(YEAR),
        |y| (
            variable!(TOTAL_TECHNOLOGY_ANNUAL_ACTIVITY; region r, tech t, year y),
            minus_one(),
        ),
    )?;
    left.write(alloc, Sense::Equal, zero())
}
