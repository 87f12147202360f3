//! Members that do nothing or can't, and the years between which one is missing.

ghost use Rattle.std.specs.Prelude.{◌≡◌, IfOk};
ghost use Rattle.named_equations.specs.Within.{IsEmission, IsFuel, IsRegion, IsTechnology, IsYear};
ghost use Rattle.data_warnings.specs.Uses.{has_zero_emissions, has_zero_limit, is_disabled, is_for_none, is_gap, is_idle_limit, is_short_lived, is_small_margin, is_unused, margin};

use crate::questions::{Question, is_so_somewhere};
use crate::rules::{Ceiling, EmissionLimit, Enabler, Limit};
use crate::values::{count, is_by_default, value};
use crate::wide::{Wide, is_so_of_some};
use crate::yearly::{NO_LIMIT, Yearly, is_ever_so};
use model_sets::param_numbers::{MODEL_PERIOD_EMISSION_LIMIT, OPERATIONAL_LIFE, RESERVE_MARGIN};
use model_sets::set_numbers::YEAR;
use param_tables::ModelData;
use std::alloc::{AllocError, Global};

/// Whether there are later years, and the next one is missing.
pub(crate) fn is_gap(model: &ModelData, y: u16) -> bool
    requires { IsYear model.now.facts y }
    ensures { result ≡ is_gap model.now.facts y }
{
    is_so_somewhere(model, Question::LaterYear(y)) && !is_so_somewhere(model, Question::NextYear(y))
}

/// Whether the technology makes something, and can't run in any year. It may run out of memory.
pub(crate) fn is_disabled(
    alloc: Global,
    model: &ModelData,
    enabler: Enabler,
    r: u16,
    t: u16,
) -> Result<bool, AllocError>
    requires region { IsRegion model.now.facts r }
    requires technology { IsTechnology model.now.facts t }
    ensures { IfOk result (λ is. is ≡ is_disabled model.now.facts enabler r t) }
{
    if is_ever_so(alloc, model, Yearly::Runs(enabler, r, t))? {
        return Ok(false);
    }
    is_so_of_some(alloc, model, Wide::Makes(r, t))
}

/// Whether there are several years, and a technology that has a capital cost in some of them lives one, by default. It may run
/// out of memory.
pub(crate) fn is_short_lived(
    alloc: Global,
    model: &ModelData,
    r: u16,
    t: u16,
) -> Result<bool, AllocError>
    requires region { IsRegion model.now.facts r }
    requires technology { IsTechnology model.now.facts t }
    ensures { IfOk result (λ is. is ≡ is_short_lived model.now.facts r t) }
{
    if count(model, YEAR) <= 1 || !is_by_default(model, OPERATIONAL_LIFE, &[r, t], 1_000_000_000) {
        return Ok(false);
    }
    is_ever_so(alloc, model, Yearly::Costs(r, t))
}

/// The reserve margin of a region.
pub(crate) fn margin(model: &ModelData, r: u16, y: u16) -> i128
    requires region { IsRegion model.now.facts r }
    requires year { IsYear model.now.facts y }
    ensures { result ≡ margin model.now.facts r y }
{
    value(model, RESERVE_MARGIN, &[r, y])
}

/// Whether the reserve margin is between 0 and 1, and a fuel needs it.
pub(crate) fn is_small_margin(model: &ModelData, r: u16, y: u16) -> bool
    requires region { IsRegion model.now.facts r }
    requires year { IsYear model.now.facts y }
    ensures { result ≡ is_small_margin model.now.facts r y }
{
    let margin = margin(model, r, y);
    0 < margin && margin < 1_000_000_000 && is_so_somewhere(model, Question::Tag(r, y))
}

/// Whether a limit of the technology is 0 in some year, by default. It may run out of memory.
pub(crate) fn has_zero_limit(
    alloc: Global,
    model: &ModelData,
    limit: Limit,
    r: u16,
    t: u16,
) -> Result<bool, AllocError>
    requires region { IsRegion model.now.facts r }
    requires technology { IsTechnology model.now.facts t }
    ensures { IfOk result (λ is. is ≡ has_zero_limit model.now.facts limit r t) }
{
    is_ever_so(alloc, model, Yearly::ZeroLimit(limit, r, t))
}

/// Whether a limit of the emission is 0 by default, that of the years in some year. It may run out of memory.
pub(crate) fn has_zero_emissions(
    alloc: Global,
    model: &ModelData,
    limit: EmissionLimit,
    r: u16,
    e: u16,
) -> Result<bool, AllocError>
    requires region { IsRegion model.now.facts r }
    requires emission { IsEmission model.now.facts e }
    ensures { IfOk result (λ is. is ≡ has_zero_emissions model.now.facts limit r e) }
{
    match limit {
        EmissionLimit::Annual => is_ever_so(alloc, model, Yearly::ZeroEmissions(r, e)),
        EmissionLimit::ModelPeriod => {
            Ok(is_by_default(model, MODEL_PERIOD_EMISSION_LIMIT, &[r, e], 0))
        }
    }
}

/// Whether a limit is 99999 or more for some technology or emission in some year. It may run out of memory.
pub(crate) fn is_for_none(
    alloc: Global,
    model: &ModelData,
    ceiling: Ceiling,
    r: u16,
) -> Result<bool, AllocError>
    requires { IsRegion model.now.facts r }
    ensures { IfOk result (λ is. is ≡ is_for_none model.now.facts ceiling r) }
{
    is_so_of_some(alloc, model, Wide::Towers(ceiling, r))
}

/// Whether the emission has a limit, of the model period or of a year, and nothing gives it off. It may run out of memory.
pub(crate) fn is_idle_limit(
    alloc: Global,
    model: &ModelData,
    r: u16,
    e: u16,
) -> Result<bool, AllocError>
    requires region { IsRegion model.now.facts r }
    requires emission { IsEmission model.now.facts e }
    ensures { IfOk result (λ is. is ≡ is_idle_limit model.now.facts r e) }
{
    let limited = is_ever_so(alloc, model, Yearly::Limited(r, e))?;
    let emitted = is_ever_so(alloc, model, Yearly::Emitted(r, e))?;
    Ok((value(model, MODEL_PERIOD_EMISSION_LIMIT, &[r, e]) != NO_LIMIT || limited) && !emitted)
}

/// Whether the fuel is made, and in no year wanted. It may run out of memory.
pub(crate) fn is_unused(
    alloc: Global,
    model: &ModelData,
    r: u16,
    f: u16,
) -> Result<bool, AllocError>
    requires region { IsRegion model.now.facts r }
    requires fuel { IsFuel model.now.facts f }
    ensures { IfOk result (λ is. is ≡ is_unused model.now.facts r f) }
{
    if !is_ever_so(alloc, model, Yearly::Made(r, f))? {
        return Ok(false);
    }
    Ok(!is_ever_so(alloc, model, Yearly::Wanted(r, f))?)
}
