//! Each equation of capacity adequacy, term by term.

ghost use Rattle.std.specs.Prelude.{◌≡◌};
ghost use Rattle.row_core.specs.Amounts.{Billionths};
ghost use Rattle.row_core.specs.Calculated.{known, number_of};
ghost use Rattle.row_core.specs.EquationTerms.{IsWritten, less};
ghost use Rattle.row_core.specs.Repeated.{IsTerm, IsTermWhere};
ghost use Rattle.named_equations.specs.Capacity.{still_counts};
ghost use Rattle.named_equations.specs.Parameters.{year_split};
ghost use Rattle.named_equations.specs.Variables.{new_capacity, rate_of_total_activity};
ghost use Rattle.named_equations.specs.WrittenFactors.{life_of};
ghost use Rattle.named_equations.specs.Indices.{by_rty, by_rlty};
ghost use Rattle.capacity_rows.specs.Capacity.{caa1, caa2, caa3, caa4, cab1, slices_capacity, year_capacity};
ghost use Rattle.named_equations.specs.Within.{IsRegion, IsSlice, IsTechnology, IsYear};

use equation_parts::parameters::{value, year_split};
use equation_parts::whole_numbers::operational_life;
use equation_parts::years::still_counts;
use equation_parts::{index, variable};
use exact_num::Frac;
use model_sets::param_numbers::{
    AVAILABILITY_FACTOR, CAPACITY_FACTOR, CAPACITY_TO_ACTIVITY_UNIT, RESIDUAL_CAPACITY,
};
use model_sets::set_numbers::{MODE_OF_OPERATION, TIMESLICE, YEAR};
use param_tables::ModelData;
use row_core::kind_numbers::{
    ACCUMULATED_NEW_CAPACITY, NEW_CAPACITY, RATE_OF_ACTIVITY, RATE_OF_TOTAL_ACTIVITY,
    TOTAL_CAPACITY_ANNUAL,
};
use row_core::{
    Index, LeftSide, Row, RowName, Sense, Stopped, Var, minus_one, negative, one, plus, times, zero,
};
use std::alloc::Global;

/// CAa1: what was built and still counts is the sum of what was built in the years that count.
pub(crate) fn caa1(alloc: Global, model: &ModelData, name: RowName) -> Result<Row, Stopped>
    requires region { IsRegion model.now.facts name.index.region }
    requires technology { IsTechnology model.now.facts name.index.tech }
    requires year { IsYear model.now.facts name.index.year }
    ensures { IsWritten name (by_rty (caa1 model.now.facts) name.index) result }
{
    let index!(region r, tech t, year y) = name.index;
    let mut left = LeftSide::new(alloc, name);
    let built = variable!(ACCUMULATED_NEW_CAPACITY; region r, tech t, year y);
    left.add(built, one())?;
    let life = operational_life(model, r, t);
    left.add_where(
        model.sets().count(YEAR),
        |yy|
            requires life { life ≡ life_of model.now.facts r t }
            requires year { IsYear model.now.facts y }
            requires built { IsYear model.now.facts yy }
            ensures { IsTermWhere (still_counts model.entry.now.facts r t y yy) (less (new_capacity r t yy)) result }
        {
            if still_counts(model, life, y, yy) {
                Some((
                    variable!(NEW_CAPACITY; region r, tech t, year yy),
                    minus_one(),
                ))
            } else {
                None
            }
        },
    )?;
    left.write(alloc, Sense::Equal, zero())
}

/// CAa2: what is there in a year is what was built and still counts, and what was there before.
pub(crate) fn caa2(alloc: Global, model: &ModelData, name: RowName) -> Result<Row, Stopped>
    requires region { IsRegion model.now.facts name.index.region }
    requires technology { IsTechnology model.now.facts name.index.tech }
    requires year { IsYear model.now.facts name.index.year }
    ensures { IsWritten name (by_rty (caa2 model.now.facts) name.index) result }
{
    let index!(region r, tech t, year y) = name.index;
    let mut left = LeftSide::new(alloc, name);
    let capacity = variable!(TOTAL_CAPACITY_ANNUAL; region r, tech t, year y);
    left.add(capacity, one())?;
    let built = variable!(ACCUMULATED_NEW_CAPACITY; region r, tech t, year y);
    left.add(built, minus_one())?;
    left.write(
        alloc,
        Sense::Equal,
        value(model, RESIDUAL_CAPACITY, &[r, t, y]),
    )
}

/// CAa3: the activity of a technology is that of its modes.
pub(crate) fn caa3(alloc: Global, model: &ModelData, name: RowName) -> Result<Row, Stopped>
    ensures { IsWritten name (by_rlty (caa3 model.now.facts) name.index) result }
{
    let index!(region r, slice l, tech t, year y) = name.index;
    let mut left = LeftSide::new(alloc, name);
    let activity = variable!(RATE_OF_TOTAL_ACTIVITY; region r, slice l, tech t, year y);
    left.add(activity, one())?;
    left.add_each(
        model.sets().count(MODE_OF_OPERATION),
        |m| (
            variable!(RATE_OF_ACTIVITY; region r, slice l, tech t, mode m, year y),
            minus_one(),
        ),
    )?;
    left.write(alloc, Sense::Equal, zero())
}

/// CAa4: in each timeslice the activity stays within the capacity.
pub(crate) fn caa4(alloc: Global, model: &ModelData, name: RowName) -> Result<Row, Stopped>
    requires region { IsRegion model.now.facts name.index.region }
    requires slice { IsSlice model.now.facts name.index.slice }
    requires technology { IsTechnology model.now.facts name.index.tech }
    requires year { IsYear model.now.facts name.index.year }
    ensures { IsWritten name (by_rlty (caa4 model.now.facts) name.index) result }
{
    let index!(region r, slice l, tech t, year y) = name.index;
    let mut left = LeftSide::new(alloc, name);
    let activity = variable!(RATE_OF_TOTAL_ACTIVITY; region r, slice l, tech t, year y);
    left.add(activity, one())?;
    let unit = times(
        value(model, CAPACITY_FACTOR, &[r, t, l, y]),
        value(model, CAPACITY_TO_ACTIVITY_UNIT, &[r, t]),
    );
    let capacity = variable!(TOTAL_CAPACITY_ANNUAL; region r, tech t, year y);
    left.add(capacity, negative(unit))?;
    left.write(alloc, Sense::Most, zero())
}

/// CAb1: in each year the activity stays within what the capacity can do in the part of the year for which it
/// is available.
pub(crate) fn cab1(alloc: Global, model: &ModelData, name: RowName) -> Result<Row, Stopped>
    requires region { IsRegion model.now.facts name.index.region }
    requires technology { IsTechnology model.now.facts name.index.tech }
    requires year { IsYear model.now.facts name.index.year }
    ensures { IsWritten name (by_rty (cab1 model.now.facts) name.index) result }
{
    let index!(region r, tech t, year y) = name.index;
    let mut left = LeftSide::new(alloc, name);
    let capacity = variable!(TOTAL_CAPACITY_ANNUAL; region r, tech t, year y);
    left.add(capacity, negative(year_capacity(model, r, t, y)))?;
    left.add_each(
        model.sets().count(TIMESLICE),
        |l|
            requires slice { IsSlice model.now.facts l }
            requires year { IsYear model.now.facts y }
            ensures { IsTerm (rate_of_total_activity r l t y, Billionths (year_split model.entry.now.facts l y)) result }
        {
            (
                variable!(RATE_OF_TOTAL_ACTIVITY; region r, slice l, tech t, year y),
                year_split(model, l, y),
            )
        },
    )?;
    left.write(alloc, Sense::Most, zero())
}

/// What a unit of capacity can do in a year.
fn year_capacity(model: &ModelData, r: u16, t: u16, y: u16) -> Option<Frac>
    requires region { IsRegion model.now.facts r }
    requires technology { IsTechnology model.now.facts t }
    requires year { IsYear model.now.facts y }
    ensures { known result ≡ number_of (year_capacity model.now.facts r t y) }
{
    let slices = slices_capacity(model, r, t, y);
    times(
        times(slices, value(model, AVAILABILITY_FACTOR, &[r, t, y])),
        value(model, CAPACITY_TO_ACTIVITY_UNIT, &[r, t]),
    )
}

/// The sum over the timeslices of the capacity factor times the part of the year.
fn slices_capacity(model: &ModelData, r: u16, t: u16, y: u16) -> Option<Frac>
    requires region { IsRegion model.now.facts r }
    requires technology { IsTechnology model.now.facts t }
    requires year { IsYear model.now.facts y }
    ensures { known result ≡ number_of (slices_capacity model.now.facts r t y) }
{
    let mut sum = zero();
    for l in 0..model.sets().count(TIMESLICE) {
        sum = plus(
            sum,
            times(
                value(model, CAPACITY_FACTOR, &[r, t, l, y]),
                year_split(model, l, y),
            ),
        );
    }
    sum
}
