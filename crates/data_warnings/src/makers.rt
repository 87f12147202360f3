//! Who makes a fuel, takes it, gives off an emission, and whether a fuel is asked for.

ghost use Rattle.std.specs.Prelude.{◌≡◌, IfOk};
ghost use Rattle.param_tables.specs.Ratios.{AreMembersFor, IsTechnology as IsTechnologyOf};
ghost use Rattle.named_equations.specs.Within.{IsFuel, IsRegion, IsTechnology, IsYear};
ghost use Rattle.data_warnings.specs.Makers.{has_any_ratio, has_ratio, is_asked_for, is_handled, is_specified, is_starved, is_supplied, is_unmade, is_unprofiled};

use crate::questions::{Question, is_so_somewhere};
use crate::values::value;
use model_sets::param_numbers::{ACCUMULATED_ANNUAL_DEMAND, SPECIFIED_ANNUAL_DEMAND};
use param_tables::{ActivityRatio, ModelData};
use std::alloc::{AllocError, Global};

/// Whether some technology has such a ratio of the fuel or emission. It may run out of memory.
pub(crate) fn is_handled(
    alloc: Global,
    model: &ModelData,
    ratio: ActivityRatio,
    r: u16,
    c: u16,
    y: u16,
) -> Result<bool, AllocError>
    requires { AreMembersFor model.now.facts.sets ratio r c y }
    ensures { IfOk result (λ is. is ≡ is_handled model.now.facts ratio r c y) }
{
    let technologies = model.nonzero_technologies(alloc, ratio, r, c, y)?;
    Ok(technologies.len() != 0)
}

/// Whether the technology has such a ratio of the fuel or emission, in some mode. It may run out of memory.
pub(crate) fn has_ratio(
    alloc: Global,
    model: &ModelData,
    ratio: ActivityRatio,
    r: u16,
    t: u16,
    c: u16,
    y: u16,
) -> Result<bool, AllocError>
    requires members { AreMembersFor model.now.facts.sets ratio r c y }
    requires technology { IsTechnologyOf model.now.facts.sets t }
    ensures { IfOk result (λ is. is ≡ has_ratio model.now.facts ratio r t c y) }
{
    let modes = model.nonzero_modes(alloc, ratio, r, t, c, y)?;
    Ok(modes.len() != 0)
}

/// Whether the technology makes the fuel or takes it. It may run out of memory.
pub(crate) fn has_any_ratio(
    alloc: Global,
    model: &ModelData,
    r: u16,
    t: u16,
    f: u16,
    y: u16,
) -> Result<bool, AllocError>
    requires region { IsRegion model.now.facts r }
    requires technology { IsTechnology model.now.facts t }
    requires fuel { IsFuel model.now.facts f }
    requires year { IsYear model.now.facts y }
    ensures { IfOk result (λ is. is ≡ has_any_ratio model.now.facts r t f y) }
{
    let makes = has_ratio(alloc, model, ActivityRatio::Output, r, t, f, y)?;
    let takes = has_ratio(alloc, model, ActivityRatio::Input, r, t, f, y)?;
    Ok(makes || takes)
}

/// Whether a technology of the region makes the fuel, or a route brings it. It may run out of memory.
fn is_supplied(alloc: Global, model: &ModelData, r: u16, f: u16, y: u16) -> Result<bool, AllocError>
    requires region { IsRegion model.now.facts r }
    requires fuel { IsFuel model.now.facts f }
    requires year { IsYear model.now.facts y }
    ensures { IfOk result (λ is. is ≡ is_supplied model.now.facts r f y) }
{
    let made = is_handled(alloc, model, ActivityRatio::Output, r, f, y)?;
    Ok(made || is_so_somewhere(model, Question::Route(r, f, y)))
}

/// Whether a demand is specified.
pub(crate) fn is_specified(model: &ModelData, r: u16, f: u16, y: u16) -> bool
    requires region { IsRegion model.now.facts r }
    requires fuel { IsFuel model.now.facts f }
    requires year { IsYear model.now.facts y }
    ensures { result ≡ is_specified model.now.facts r f y }
{
    0 < value(model, SPECIFIED_ANNUAL_DEMAND, &[r, f, y])
}

/// Whether the fuel is asked for: a demand is specified in some timeslice, or accumulated over the year.
pub(crate) fn is_asked_for(model: &ModelData, r: u16, f: u16, y: u16) -> bool
    requires region { IsRegion model.now.facts r }
    requires fuel { IsFuel model.now.facts f }
    requires year { IsYear model.now.facts y }
    ensures { result ≡ is_asked_for model.now.facts r f y }
{
    is_specified(model, r, f, y) && is_so_somewhere(model, Question::Profile(r, f, y))
        || 0 < value(model, ACCUMULATED_ANNUAL_DEMAND, &[r, f, y])
}

/// Whether a demand is specified, and none of it falls into a timeslice.
pub(crate) fn is_unprofiled(model: &ModelData, r: u16, f: u16, y: u16) -> bool
    requires region { IsRegion model.now.facts r }
    requires fuel { IsFuel model.now.facts f }
    requires year { IsYear model.now.facts y }
    ensures { result ≡ is_unprofiled model.now.facts r f y }
{
    is_specified(model, r, f, y) && !is_so_somewhere(model, Question::Profile(r, f, y))
}

/// Whether the fuel is asked for and not supplied. It may run out of memory.
pub(crate) fn is_unmade(
    alloc: Global,
    model: &ModelData,
    r: u16,
    f: u16,
    y: u16,
) -> Result<bool, AllocError>
    requires region { IsRegion model.now.facts r }
    requires fuel { IsFuel model.now.facts f }
    requires year { IsYear model.now.facts y }
    ensures { IfOk result (λ is. is ≡ is_unmade model.now.facts r f y) }
{
    if !is_asked_for(model, r, f, y) {
        return Ok(false);
    }
    Ok(!is_supplied(alloc, model, r, f, y)?)
}

/// Whether the technology takes the fuel, which isn't supplied. It may run out of memory.
pub(crate) fn is_starved(
    alloc: Global,
    model: &ModelData,
    r: u16,
    t: u16,
    f: u16,
    y: u16,
) -> Result<bool, AllocError>
    requires region { IsRegion model.now.facts r }
    requires technology { IsTechnology model.now.facts t }
    requires fuel { IsFuel model.now.facts f }
    requires year { IsYear model.now.facts y }
    ensures { IfOk result (λ is. is ≡ is_starved model.now.facts r t f y) }
{
    if !has_ratio(alloc, model, ActivityRatio::Input, r, t, f, y)? {
        return Ok(false);
    }
    Ok(!is_supplied(alloc, model, r, f, y)?)
}
