//! Values that are far from those of the nearest years.

ghost use Rattle.std.specs.Prelude.{◌≡◌, ◌<◌, ◌≤◌};
ghost use Rattle.mathprog_data.specs.WellFormed.{IsWithinLimit};
ghost use Rattle.data_warnings.specs.Frames.{series_frame};
ghost use Rattle.data_warnings.specs.Neighbours.{dwarfs, is_far, is_outlier, nearest, other_nearest, series_value};
ghost use Rattle.data_warnings.specs.Values.{count};
ghost use Rattle.named_equations.specs.Within.{IsRegion, IsYear};

use crate::rules::Series;
use crate::values::{count, value};
use model_sets::param_numbers::{
    ACCUMULATED_ANNUAL_DEMAND, CAPITAL_COST, FIXED_COST, RESIDUAL_CAPACITY,
    SPECIFIED_ANNUAL_DEMAND, VARIABLE_COST,
};
use model_sets::set_numbers::YEAR;
use param_tables::ModelData;

/// The value of a series.
pub(crate) fn series_value(
    model: &ModelData,
    series: Series,
    r: u16,
    i: u16,
    m: u16,
    y: u16,
) -> i128
    requires region { IsRegion model.now.facts r }
    requires second { i < count model.now.facts (series_frame series).second }
    requires third { m < count model.now.facts (series_frame series).third }
    requires year { IsYear model.now.facts y }
    ensures value { result ≡ series_value model.now.facts series r i m y }
    ensures within { IsWithinLimit result }
{
    match series {
        Series::CapitalCost => value(model, CAPITAL_COST, &[r, i, y]),
        Series::FixedCost => value(model, FIXED_COST, &[r, i, y]),
        Series::VariableCost => value(model, VARIABLE_COST, &[r, i, m, y]),
        Series::SpecifiedAnnualDemand => value(model, SPECIFIED_ANNUAL_DEMAND, &[r, i, y]),
        Series::AccumulatedAnnualDemand => value(model, ACCUMULATED_ANNUAL_DEMAND, &[r, i, y]),
        Series::ResidualCapacity => value(model, RESIDUAL_CAPACITY, &[r, i, y]),
    }
}

/// The nearest year: the one before, and for the first year the second.
pub(crate) fn nearest(y: u16) -> u16
    ensures { result ≡ nearest y }
{
    if y == 0 { 1 } else { y - 1 }
}

// The other one of the nearest years, of three years or more.
fn other_nearest(years: u16, y: u16) -> u16
    requires many { 3 ≤ years }
    requires year { y < years }
    ensures value { result ≡ other_nearest years y }
    ensures within { result < years }
{
    if y == 0 {
        2
    } else if y + 1 == years {
        y - 2
    } else {
        y + 1
    }
}

// Whether the first is eight times the second or more.
fn dwarfs(v: i128, w: i128) -> bool
    requires { IsWithinLimit w }
    ensures { result ≡ dwarfs v w }
{
    8 * w <= v
}

// Whether all three are above 0, and the first is eight times the others or more, or an eighth of them or less.
fn is_far(v: i128, near: i128, other: i128) -> bool
    requires value { IsWithinLimit v }
    requires near { IsWithinLimit near }
    requires other { IsWithinLimit other }
    ensures { result ≡ is_far v near other }
{
    0 < v
        && 0 < near
        && 0 < other
        && (dwarfs(v, near) && dwarfs(v, other) || dwarfs(near, v) && dwarfs(other, v))
}

/// Whether the value of a year is far from those of the nearest years.
pub(crate) fn is_outlier(model: &ModelData, series: Series, r: u16, i: u16, m: u16, y: u16) -> bool
    requires region { IsRegion model.now.facts r }
    requires second { i < count model.now.facts (series_frame series).second }
    requires third { m < count model.now.facts (series_frame series).third }
    requires year { IsYear model.now.facts y }
    ensures { result ≡ is_outlier model.now.facts series r i m y }
{
    let years = count(model, YEAR);
    years >= 3
        && is_far(
            series_value(model, series, r, i, m, y),
            series_value(model, series, r, i, m, nearest(y)),
            series_value(model, series, r, i, m, other_nearest(years, y)),
        )
}
