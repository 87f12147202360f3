//! The equations of production, EBa1 to EBa3, and those of use, EBa4 to EBa6: the same ones of what is made and of what is taken.

ghost use Rattle.row_core.specs.EquationTerms.{IsWritten};
ghost use Rattle.named_equations.specs.Indices.{by_rlfy, by_rltfmy, by_rltfy};
ghost use Rattle.named_equations.specs.Within.{IsRegion, IsTechnology, IsFuel, IsMode, IsYear};
ghost use Rattle.balance_rows.specs.Balance.{all_flow, mode_flow, technology_flow};

use crate::flows::Flow;
use equation_parts::shapes::{is_times, take_away_each};
use equation_parts::{index, variable};
use param_tables::ModelData;
use row_core::kind_numbers::RATE_OF_ACTIVITY;
use row_core::{Index, LeftSide, Row, RowName, Sense, Stopped, Var, one, zero};
use std::alloc::Global;

/// EBa1 and EBa4: the rate in a mode is the rate of activity times the ratio.
pub(crate) fn mode_flow(
    alloc: Global,
    model: &ModelData,
    name: RowName,
    flow: Flow,
) -> Result<Row, Stopped>
    requires region { IsRegion model.now.facts name.index.region }
    requires technology { IsTechnology model.now.facts name.index.tech }
    requires fuel { IsFuel model.now.facts name.index.fuel }
    requires mode { IsMode model.now.facts name.index.mode }
    requires year { IsYear model.now.facts name.index.year }
    ensures { IsWritten name (by_rltfmy (mode_flow flow model.now.facts) name.index) result }
{
    let index!(region r, slice l, tech t, fuel f, mode m, year y) = name.index;
    is_times(
        alloc,
        name,
        flow.rate_in_mode(r, l, t, f, m, y),
        variable!(RATE_OF_ACTIVITY; region r, slice l, tech t, mode m, year y),
        flow.value(model, r, t, f, m, y),
    )
}

/// EBa2 and EBa5: the rate of a technology is that of the modes in which the ratio isn't 0.
pub(crate) fn technology_flow(
    alloc: Global,
    model: &ModelData,
    name: RowName,
    flow: Flow,
) -> Result<Row, Stopped>
    requires region { IsRegion model.now.facts name.index.region }
    requires technology { IsTechnology model.now.facts name.index.tech }
    requires fuel { IsFuel model.now.facts name.index.fuel }
    requires year { IsYear model.now.facts name.index.year }
    ensures { IsWritten name (by_rltfy (technology_flow flow model.now.facts) name.index) result }
{
    let index!(region r, slice l, tech t, fuel f, year y) = name.index;
    let mut left = LeftSide::new(alloc, name);
    left.add(flow.rate_of_technology(r, l, t, f, y), one())?;
    let modes = model.nonzero_modes(alloc, flow.ratio(), r, t, f, y)?;
    take_away_each(&mut left, &modes, |m| flow.rate_in_mode(r, l, t, f, m, y))?;
    left.write(alloc, Sense::Equal, zero())
}

/// EBa3 and EBa6: the rate of all is that of the technologies that have such a mode.
pub(crate) fn all_flow(
    alloc: Global,
    model: &ModelData,
    name: RowName,
    flow: Flow,
) -> Result<Row, Stopped>
    requires region { IsRegion model.now.facts name.index.region }
    requires fuel { IsFuel model.now.facts name.index.fuel }
    requires year { IsYear model.now.facts name.index.year }
    ensures { IsWritten name (by_rlfy (all_flow flow model.now.facts) name.index) result }
{
    let index!(region r, slice l, fuel f, year y) = name.index;
    let mut left = LeftSide::new(alloc, name);
    left.add(flow.rate_of_all(r, l, f, y), one())?;
    let technologies = model.nonzero_technologies(alloc, flow.ratio(), r, f, y)?;
    take_away_each(&mut left, &technologies, |t| {
        flow.rate_of_technology(r, l, t, f, y)
    })?;
    left.write(alloc, Sense::Equal, zero())
}
