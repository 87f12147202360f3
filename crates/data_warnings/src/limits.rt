//! Limits that contradict each other, and costs below 0 that no limit holds.

ghost use Rattle.std.specs.Prelude.{◌≡◌, ◌<◌};
ghost use Rattle.data_warnings.specs.Frames.{cost_frame};
ghost use Rattle.data_warnings.specs.Values.{count};
ghost use Rattle.data_warnings.specs.Limits.{cost_value, greatest_period, greatest_value, is_crossed, is_crossed_period, is_held, is_loose, least_period, least_value};
ghost use Rattle.named_equations.specs.Within.{IsRegion, IsTechnology, IsYear};

use crate::rules::{Cost, Pair};
use crate::values::value;
use model_sets::param_numbers::{
    CAPITAL_COST, FIXED_COST, RESIDUAL_CAPACITY, TOTAL_ANNUAL_MAX_CAPACITY,
    TOTAL_ANNUAL_MAX_CAPACITY_INVESTMENT, TOTAL_ANNUAL_MIN_CAPACITY,
    TOTAL_ANNUAL_MIN_CAPACITY_INVESTMENT, TOTAL_TECHNOLOGY_ANNUAL_ACTIVITY_LOWER_LIMIT,
    TOTAL_TECHNOLOGY_ANNUAL_ACTIVITY_UPPER_LIMIT,
    TOTAL_TECHNOLOGY_MODEL_PERIOD_ACTIVITY_LOWER_LIMIT,
    TOTAL_TECHNOLOGY_MODEL_PERIOD_ACTIVITY_UPPER_LIMIT, VARIABLE_COST,
};
use param_tables::ModelData;

/// The least value of a pair.
pub(crate) fn least_value(model: &ModelData, pair: Pair, r: u16, t: u16, y: u16) -> i128
    requires region { IsRegion model.now.facts r }
    requires technology { IsTechnology model.now.facts t }
    requires year { IsYear model.now.facts y }
    ensures { result ≡ least_value model.now.facts pair r t y }
{
    match pair {
        Pair::Residual => value(model, RESIDUAL_CAPACITY, &[r, t, y]),
        Pair::Capacity => value(model, TOTAL_ANNUAL_MIN_CAPACITY, &[r, t, y]),
        Pair::Investment => value(model, TOTAL_ANNUAL_MIN_CAPACITY_INVESTMENT, &[r, t, y]),
        Pair::Activity => value(
            model,
            TOTAL_TECHNOLOGY_ANNUAL_ACTIVITY_LOWER_LIMIT,
            &[r, t, y],
        ),
    }
}

/// The greatest value of a pair.
pub(crate) fn greatest_value(model: &ModelData, pair: Pair, r: u16, t: u16, y: u16) -> i128
    requires region { IsRegion model.now.facts r }
    requires technology { IsTechnology model.now.facts t }
    requires year { IsYear model.now.facts y }
    ensures { result ≡ greatest_value model.now.facts pair r t y }
{
    match pair {
        Pair::Residual => value(model, TOTAL_ANNUAL_MAX_CAPACITY, &[r, t, y]),
        Pair::Capacity => value(model, TOTAL_ANNUAL_MAX_CAPACITY, &[r, t, y]),
        Pair::Investment => value(model, TOTAL_ANNUAL_MAX_CAPACITY_INVESTMENT, &[r, t, y]),
        Pair::Activity => value(
            model,
            TOTAL_TECHNOLOGY_ANNUAL_ACTIVITY_UPPER_LIMIT,
            &[r, t, y],
        ),
    }
}

/// Whether the greatest value of a pair is set, and the least is above it.
pub(crate) fn is_crossed(model: &ModelData, pair: Pair, r: u16, t: u16, y: u16) -> bool
    requires region { IsRegion model.now.facts r }
    requires technology { IsTechnology model.now.facts t }
    requires year { IsYear model.now.facts y }
    ensures { result ≡ is_crossed model.now.facts pair r t y }
{
    let greatest = greatest_value(model, pair, r, t, y);
    0 <= greatest && greatest < least_value(model, pair, r, t, y)
}

/// The least activity of the model period.
pub(crate) fn least_period(model: &ModelData, r: u16, t: u16) -> i128
    requires region { IsRegion model.now.facts r }
    requires technology { IsTechnology model.now.facts t }
    ensures { result ≡ least_period model.now.facts r t }
{
    value(
        model,
        TOTAL_TECHNOLOGY_MODEL_PERIOD_ACTIVITY_LOWER_LIMIT,
        &[r, t],
    )
}

/// The greatest activity of the model period.
pub(crate) fn greatest_period(model: &ModelData, r: u16, t: u16) -> i128
    requires region { IsRegion model.now.facts r }
    requires technology { IsTechnology model.now.facts t }
    ensures { result ≡ greatest_period model.now.facts r t }
{
    value(
        model,
        TOTAL_TECHNOLOGY_MODEL_PERIOD_ACTIVITY_UPPER_LIMIT,
        &[r, t],
    )
}

/// Whether the greatest activity of the model period is set, and the least is above it.
pub(crate) fn is_crossed_period(model: &ModelData, r: u16, t: u16) -> bool
    requires region { IsRegion model.now.facts r }
    requires technology { IsTechnology model.now.facts t }
    ensures { result ≡ is_crossed_period model.now.facts r t }
{
    let greatest = greatest_period(model, r, t);
    0 < greatest && greatest < least_period(model, r, t)
}

// Whether a limit holds the technology.
fn is_held(model: &ModelData, r: u16, t: u16, y: u16) -> bool
    requires region { IsRegion model.now.facts r }
    requires technology { IsTechnology model.now.facts t }
    requires year { IsYear model.now.facts y }
    ensures { result ≡ is_held model.now.facts r t y }
{
    0 <= value(model, TOTAL_ANNUAL_MAX_CAPACITY, &[r, t, y])
        || 0 <= value(model, TOTAL_ANNUAL_MAX_CAPACITY_INVESTMENT, &[r, t, y])
        || 0 <= value(
            model,
            TOTAL_TECHNOLOGY_ANNUAL_ACTIVITY_UPPER_LIMIT,
            &[r, t, y],
        )
        || 0 < greatest_period(model, r, t)
}

/// A cost of a technology, in a mode where it is one of modes.
pub(crate) fn cost_value(model: &ModelData, cost: Cost, r: u16, t: u16, m: u16, y: u16) -> i128
    requires region { IsRegion model.now.facts r }
    requires technology { IsTechnology model.now.facts t }
    requires mode { m < count model.now.facts (cost_frame cost).third }
    requires year { IsYear model.now.facts y }
    ensures { result ≡ cost_value model.now.facts cost r t m y }
{
    match cost {
        Cost::Capital => value(model, CAPITAL_COST, &[r, t, y]),
        Cost::Fixed => value(model, FIXED_COST, &[r, t, y]),
        Cost::Variable => value(model, VARIABLE_COST, &[r, t, m, y]),
    }
}

/// Whether a cost is below 0, and no limit holds the technology.
pub(crate) fn is_loose(model: &ModelData, cost: Cost, r: u16, t: u16, m: u16, y: u16) -> bool
    requires region { IsRegion model.now.facts r }
    requires technology { IsTechnology model.now.facts t }
    requires mode { m < count model.now.facts (cost_frame cost).third }
    requires year { IsYear model.now.facts y }
    ensures { result ≡ is_loose model.now.facts cost r t m y }
{
    cost_value(model, cost, r, t, m, y) < 0 && !is_held(model, r, t, y)
}
