//! Emissions of technologies, and their penalties.

ghost use Rattle.row_core.specs.EquationTerms.{IsWritten};
ghost use Rattle.named_equations.specs.Indices.{by_rtemy, by_rtey, by_rty};
ghost use Rattle.named_equations.specs.RegionFactors.{AreRegionFactors, places_of};
ghost use Rattle.named_equations.specs.Within.{IsRegion, IsTechnology, IsEmission, IsMode, IsYear};
ghost use Rattle.emission_rows.specs.Emissions.{e1, e2, e3, e4, e5};

use discount_factors::Factors;
use equation_parts::factors::operating_factor;
use equation_parts::parameters::value;
use equation_parts::shapes::{is_times, take_away_each};
use equation_parts::{index, variable};
use model_sets::param_numbers::{EMISSION_ACTIVITY_RATIO, EMISSIONS_PENALTY};
use model_sets::set_numbers::EMISSION;
use param_tables::{ActivityRatio, ModelData};
use row_core::kind_numbers::{
    ANNUAL_TECHNOLOGY_EMISSION, ANNUAL_TECHNOLOGY_EMISSION_BY_MODE,
    ANNUAL_TECHNOLOGY_EMISSION_PENALTY_BY_EMISSION, ANNUAL_TECHNOLOGY_EMISSIONS_PENALTY,
    DISCOUNTED_TECHNOLOGY_EMISSIONS_PENALTY, TOTAL_ANNUAL_TECHNOLOGY_ACTIVITY_BY_MODE,
};
use row_core::{Index, LeftSide, Row, RowName, Sense, Stopped, Var, minus_one, one, zero};
use std::alloc::Global;

/// E1: the emission of a mode is the mode's annual activity times the ratio.
pub(crate) fn e1(alloc: Global, model: &ModelData, name: RowName) -> Result<Row, Stopped>
    requires region { IsRegion model.now.facts name.index.region }
    requires technology { IsTechnology model.now.facts name.index.tech }
    requires emission { IsEmission model.now.facts name.index.emission }
    requires mode { IsMode model.now.facts name.index.mode }
    requires year { IsYear model.now.facts name.index.year }
    ensures { IsWritten name (by_rtemy (e1 model.now.facts) name.index) result }
{
    let index!(region r, tech t, emission e, mode m, year y) = name.index;
    is_times(
        alloc,
        name,
        variable!(ANNUAL_TECHNOLOGY_EMISSION_BY_MODE; region r, tech t, emission e, mode m, year y),
        variable!(TOTAL_ANNUAL_TECHNOLOGY_ACTIVITY_BY_MODE; region r, tech t, mode m, year y),
        value(model, EMISSION_ACTIVITY_RATIO, &[r, t, e, m, y]),
    )
}

/// E2: the emission of a technology is that of the modes that emit.
pub(crate) fn e2(alloc: Global, model: &ModelData, name: RowName) -> Result<Row, Stopped>
    requires region { IsRegion model.now.facts name.index.region }
    requires technology { IsTechnology model.now.facts name.index.tech }
    requires emission { IsEmission model.now.facts name.index.emission }
    requires year { IsYear model.now.facts name.index.year }
    ensures { IsWritten name (by_rtey (e2 model.now.facts) name.index) result }
{
    let index!(region r, tech t, emission e, year y) = name.index;
    let mut left = LeftSide::new(alloc, name);
    let own = variable!(ANNUAL_TECHNOLOGY_EMISSION; region r, tech t, emission e, year y);
    left.add(own, one())?;
    let modes = model.nonzero_modes(alloc, ActivityRatio::Emission, r, t, e, y)?;
    take_away_each(&mut left, &modes, |m| {
        variable!(ANNUAL_TECHNOLOGY_EMISSION_BY_MODE; region r, tech t, emission e, mode m, year y)
    })?;
    left.write(alloc, Sense::Equal, zero())
}

/// E3: the penalty of an emission of a technology is the emission times its penalty.
pub(crate) fn e3(alloc: Global, model: &ModelData, name: RowName) -> Result<Row, Stopped>
    requires region { IsRegion model.now.facts name.index.region }
    requires emission { IsEmission model.now.facts name.index.emission }
    requires year { IsYear model.now.facts name.index.year }
    ensures { IsWritten name (by_rtey (e3 model.now.facts) name.index) result }
{
    let index!(region r, tech t, emission e, year y) = name.index;
    is_times(
        alloc,
        name,
        variable!(ANNUAL_TECHNOLOGY_EMISSION_PENALTY_BY_EMISSION; region r, tech t, emission e, year y),
        variable!(ANNUAL_TECHNOLOGY_EMISSION; region r, tech t, emission e, year y),
        value(model, EMISSIONS_PENALTY, &[r, e, y]),
    )
}

/// E4: the penalty of a technology is that of its emissions.
pub(crate) fn e4(alloc: Global, model: &ModelData, name: RowName) -> Result<Row, Stopped>
    ensures { IsWritten name (by_rty (e4 model.now.facts) name.index) result }
{
    let index!(region r, tech t, year y) = name.index;
    let mut left = LeftSide::new(alloc, name);
    let own = variable!(ANNUAL_TECHNOLOGY_EMISSIONS_PENALTY; region r, tech t, year y);
    left.add(own, one())?;
    left.add_each(
        model.sets().count(EMISSION),
        |e| (
            variable!(ANNUAL_TECHNOLOGY_EMISSION_PENALTY_BY_EMISSION; region r, tech t, emission e, year y),
            minus_one(),
        ),
    )?;
    left.write(alloc, Sense::Equal, zero())
}

/// E5: the discounted penalty is the penalty times the operating factor, since it is due in the middle of the year.
pub(crate) fn e5(
    alloc: Global,
    model: &ModelData,
    factors: &[Factors],
    name: RowName,
) -> Result<Row, Stopped>
    requires factors { AreRegionFactors (places_of factors.now) model.now.facts factors.now }
    requires region { IsRegion model.now.facts name.index.region }
    requires year { IsYear model.now.facts name.index.year }
    ensures { IsWritten name (by_rty (e5 (places_of factors.now) model.now.facts) name.index) result }
{
    let index!(region r, tech t, year y) = name.index;
    is_times(
        alloc,
        name,
        variable!(DISCOUNTED_TECHNOLOGY_EMISSIONS_PENALTY; region r, tech t, year y),
        variable!(ANNUAL_TECHNOLOGY_EMISSIONS_PENALTY; region r, tech t, year y),
        operating_factor(model, factors, r, y),
    )
}
