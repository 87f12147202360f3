//! Questions on a year, which are asked of whether it is ever so.

ghost use Rattle.std.specs.Prelude.{◌≡◌, ◌<◌, ◌≤◌, pos, [], ◌∷◌, IfOk};
ghost use Rattle.model_sets.specs.Names.{set_count, year};
ghost use Rattle.named_equations.specs.Within.{IsFuel, IsRegion, IsTechnology, IsYear};
ghost use Rattle.data_warnings.specs.Values.{count, is_by_default};
ghost use Rattle.data_warnings.specs.Yearly.{IsAskedYearly, ceiling_over, ceiling_value, is_enabled, is_ever_so, is_so_in, is_wanted, limit_param, limit_value};

use crate::makers::{has_any_ratio, has_ratio, is_asked_for, is_handled};
use crate::questions::{Question, is_so_somewhere};
use crate::rules::{Ceiling, EmissionLimit, Enabler, Limit};
use crate::values::{count, is_by_default, value};
use model_sets::param_numbers::{
    ANNUAL_EMISSION_LIMIT, AVAILABILITY_FACTOR, CAPACITY_TO_ACTIVITY_UNIT, CAPITAL_COST,
    MODEL_PERIOD_EMISSION_LIMIT, TOTAL_ANNUAL_MAX_CAPACITY, TOTAL_ANNUAL_MAX_CAPACITY_INVESTMENT,
    TOTAL_TECHNOLOGY_ANNUAL_ACTIVITY_UPPER_LIMIT,
    TOTAL_TECHNOLOGY_MODEL_PERIOD_ACTIVITY_UPPER_LIMIT,
};
use model_sets::set_numbers::{EMISSION, TECHNOLOGY, YEAR};
use param_tables::{ActivityRatio, ModelData};
use std::alloc::{AllocError, Global};

/// What an emission limit says that is none: -1, in billionths.
pub(crate) const NO_LIMIT: i128 = -1_000_000_000;

/// A question on a year, by positions of region, technology, and fuel or emission.
#[derive(Clone, Copy, PartialEq, Eq)]
pub enum Yearly {
    /// A technology makes the fuel.
    Made(u16, u16),
    /// The fuel is asked for, a technology takes it, or a route brings it.
    Wanted(u16, u16),
    /// A technology gives off the emission.
    Emitted(u16, u16),
    /// The emission has a limit.
    Limited(u16, u16),
    /// The technology makes the fuel.
    Makes(u16, u16, u16),
    /// The technology makes the fuel or takes it.
    MakesOrTakes(u16, u16, u16),
    /// The technology has a capital cost above 0.
    Costs(u16, u16),
    /// What the technology needs to run isn't 0.
    Runs(Enabler, u16, u16),
    /// The limit is 0 by default.
    ZeroLimit(Limit, u16, u16),
    /// AnnualEmissionLimit is 0 by default.
    ZeroEmissions(u16, u16),
    /// The limit of the technology or of the emission is 99999 or more.
    Towers(Ceiling, u16, u16),
}

// The limit of a technology.
fn limit_value(model: &ModelData, limit: Limit, r: u16, t: u16, y: u16) -> i128
    requires region { IsRegion model.now.facts r }
    requires technology { IsTechnology model.now.facts t }
    requires year { IsYear model.now.facts y }
    ensures { result ≡ limit_value model.now.facts limit r t y }
{
    match limit {
        Limit::Capacity => value(model, TOTAL_ANNUAL_MAX_CAPACITY, &[r, t, y]),
        Limit::Investment => value(model, TOTAL_ANNUAL_MAX_CAPACITY_INVESTMENT, &[r, t, y]),
        Limit::Activity => value(
            model,
            TOTAL_TECHNOLOGY_ANNUAL_ACTIVITY_UPPER_LIMIT,
            &[r, t, y],
        ),
    }
}

/// The set of whose members a parameter of upper limits is, besides regions.
pub(crate) fn ceiling_over(ceiling: Ceiling) -> u8
    ensures set { result ≡ ceiling_over ceiling }
    ensures listed { result ≤ set_count }
{
    match ceiling {
        Ceiling::Technology(_) | Ceiling::Period => TECHNOLOGY,
        Ceiling::Emission(_) => EMISSION,
    }
}

// The upper limit of a technology or of an emission; those of the model period are the same in each year.
fn ceiling_value(model: &ModelData, ceiling: Ceiling, r: u16, i: u16, y: u16) -> i128
    requires region { IsRegion model.now.facts r }
    requires member { i < count model.now.facts (ceiling_over ceiling) }
    requires year { IsYear model.now.facts y }
    ensures { result ≡ ceiling_value model.now.facts ceiling r i y }
{
    match ceiling {
        Ceiling::Technology(limit) => limit_value(model, limit, r, i, y),
        Ceiling::Period => value(
            model,
            TOTAL_TECHNOLOGY_MODEL_PERIOD_ACTIVITY_UPPER_LIMIT,
            &[r, i],
        ),
        Ceiling::Emission(EmissionLimit::Annual) => {
            value(model, ANNUAL_EMISSION_LIMIT, &[r, i, y])
        }
        Ceiling::Emission(EmissionLimit::ModelPeriod) => {
            value(model, MODEL_PERIOD_EMISSION_LIMIT, &[r, i])
        }
    }
}

// Whether the limit of a technology is 0 by default.
fn is_zero_limit(model: &ModelData, limit: Limit, r: u16, t: u16, y: u16) -> bool
    requires region { IsRegion model.now.facts r }
    requires technology { IsTechnology model.now.facts t }
    requires year { IsYear model.now.facts y }
    ensures { result ≡ is_by_default model.now.facts (limit_param limit) (r ∷ t ∷ y ∷ []) (pos 0) }
{
    match limit {
        Limit::Capacity => is_by_default(model, TOTAL_ANNUAL_MAX_CAPACITY, &[r, t, y], 0),
        Limit::Investment => {
            is_by_default(model, TOTAL_ANNUAL_MAX_CAPACITY_INVESTMENT, &[r, t, y], 0)
        }
        Limit::Activity => is_by_default(
            model,
            TOTAL_TECHNOLOGY_ANNUAL_ACTIVITY_UPPER_LIMIT,
            &[r, t, y],
            0,
        ),
    }
}

// Whether what a technology needs to run isn't 0.
fn is_enabled(model: &ModelData, enabler: Enabler, r: u16, t: u16, y: u16) -> bool
    requires region { IsRegion model.now.facts r }
    requires technology { IsTechnology model.now.facts t }
    requires year { IsYear model.now.facts y }
    ensures { result ≡ is_enabled model.now.facts enabler r t y }
{
    match enabler {
        Enabler::Unit => value(model, CAPACITY_TO_ACTIVITY_UNIT, &[r, t]) != 0,
        Enabler::Availability => value(model, AVAILABILITY_FACTOR, &[r, t, y]) != 0,
        Enabler::Factors => is_so_somewhere(model, Question::Factor(r, t, y)),
    }
}

// Whether the fuel is asked for, a technology takes it, or a route brings it.
fn is_wanted(alloc: Global, model: &ModelData, r: u16, f: u16, y: u16) -> Result<bool, AllocError>
    requires region { IsRegion model.now.facts r }
    requires fuel { IsFuel model.now.facts f }
    requires year { IsYear model.now.facts y }
    ensures { IfOk result (λ is. is ≡ is_wanted model.now.facts r f y) }
{
    let taken = is_handled(alloc, model, ActivityRatio::Input, r, f, y)?;
    Ok(is_asked_for(model, r, f, y) || taken || is_so_somewhere(model, Question::Route(r, f, y)))
}

// Whether it is so in the year.
fn is_so_in(alloc: Global, model: &ModelData, question: Yearly, y: u16) -> Result<bool, AllocError>
    requires asked { IsAskedYearly model.now.facts question }
    requires year { y < count model.now.facts year }
    ensures { IfOk result (λ is. is ≡ is_so_in model.now.facts question y) }
{
    match question {
        Yearly::Made(r, f) => is_handled(alloc, model, ActivityRatio::Output, r, f, y),
        Yearly::Wanted(r, f) => is_wanted(alloc, model, r, f, y),
        Yearly::Emitted(r, e) => is_handled(alloc, model, ActivityRatio::Emission, r, e, y),
        Yearly::Limited(r, e) => Ok(value(model, ANNUAL_EMISSION_LIMIT, &[r, e, y]) != NO_LIMIT),
        Yearly::Makes(r, t, f) => has_ratio(alloc, model, ActivityRatio::Output, r, t, f, y),
        Yearly::MakesOrTakes(r, t, f) => has_any_ratio(alloc, model, r, t, f, y),
        Yearly::Costs(r, t) => Ok(0 < value(model, CAPITAL_COST, &[r, t, y])),
        Yearly::Runs(enabler, r, t) => Ok(is_enabled(model, enabler, r, t, y)),
        Yearly::ZeroLimit(limit, r, t) => Ok(is_zero_limit(model, limit, r, t, y)),
        Yearly::ZeroEmissions(r, e) => {
            Ok(is_by_default(model, ANNUAL_EMISSION_LIMIT, &[r, e, y], 0))
        }
        Yearly::Towers(ceiling, r, i) => {
            Ok(99_999_000_000_000 <= ceiling_value(model, ceiling, r, i, y))
        }
    }
}

/// Whether it is so in some year. It may run out of memory.
pub(crate) fn is_ever_so(
    alloc: Global,
    model: &ModelData,
    question: Yearly,
) -> Result<bool, AllocError>
    requires { IsAskedYearly model.now.facts question }
    ensures { IfOk result (λ is. is ≡ is_ever_so model.now.facts question) }
{
    for y in 0..count(model, YEAR) {
        let so = is_so_in(alloc, model, question, y)?;
        if so {
            return Ok(true);
        }
    }
    Ok(false)
}
