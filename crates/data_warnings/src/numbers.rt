//! The numbers that a finding tells.

ghost use Rattle.std.specs.Prelude.{◌≡◌, true};
ghost use Rattle.data_warnings.specs.Frames.{frame_of};
ghost use Rattle.data_warnings.specs.Numbers.{number, other_number};
ghost use Rattle.data_warnings.specs.Speaking.{speaks};
ghost use Rattle.data_warnings.specs.Values.{IsPlace};

use crate::limits::{cost_value, greatest_period, greatest_value, least_period, least_value};
use crate::neighbours::{nearest, series_value};
use crate::places::Place;
use crate::reach::{greatest_capacity, least_activity};
use crate::rules::Rule;
use crate::shares::{availability, discount_rate, route, target};
use crate::sums::{Parts, sum_of};
use crate::uses::margin;
use crate::values::{value, year_number};
use model_sets::param_numbers::SPECIFIED_ANNUAL_DEMAND;
use param_tables::ModelData;

/// One, in billionths.
const BILLION: i128 = 1_000_000_000;

/// The number that is odd, in billionths, or 0 where none is told.
pub(crate) fn number(model: &ModelData, rule: Rule, p: Place) -> i128
    requires { IsPlace model.now.facts (frame_of rule) p }
    ensures { result ≡ number model.now rule p }
{
    match rule {
        Rule::YearSplitSum => sum_of(model, Parts::YearSplit(p.last)),
        Rule::YearGap => BILLION * (i128::from(year_number(model, p.last)) + 1),
        Rule::DiscountRate => discount_rate(model, p.first),
        Rule::UnprofiledDemand => {
            value(model, SPECIFIED_ANNUAL_DEMAND, &[p.first, p.second, p.last])
        }
        Rule::ProfileSum => sum_of(model, Parts::Profile(p.first, p.second, p.last)),
        Rule::Crossed(pair) => least_value(model, pair, p.first, p.second, p.last),
        Rule::CrossedPeriod => least_period(model, p.first, p.second),
        Rule::Unreachable => least_activity(model, p.first, p.second, p.last),
        Rule::ShortLives => BILLION,
        Rule::LargeAvailability => availability(model, p.first, p.second, p.last),
        Rule::LargeTarget => target(model, p.first, p.last),
        Rule::SmallMargin => margin(model, p.first, p.last),
        Rule::NegativeCost(cost) => cost_value(model, cost, p.first, p.second, p.third, p.last),
        Rule::Outlier(series) => series_value(model, series, p.first, p.second, p.third, p.last),
        Rule::EqualRoute | Rule::UnequalRoute => {
            route(model, p.first, p.second, p.third, p.last)
        }
        Rule::Rounded => BILLION * i128::from(model.rounded()),
        _ => 0,
    }
}

/// The number beside which it is odd, in billionths, or 0 where there is none.
pub(crate) fn other_number(model: &ModelData, rule: Rule, p: Place) -> i128
    requires place { IsPlace model.now.facts (frame_of rule) p }
    requires spoken { speaks model.now rule p ≡ true }
    ensures { result ≡ other_number model.now rule p }
{
    match rule {
        Rule::Crossed(pair) => greatest_value(model, pair, p.first, p.second, p.last),
        Rule::CrossedPeriod => greatest_period(model, p.first, p.second),
        Rule::Unreachable => greatest_capacity(model, p.first, p.second, p.last),
        Rule::Outlier(series) => series_value(
            model,
            series,
            p.first,
            p.second,
            p.third,
            nearest(p.last),
        ),
        Rule::UnequalRoute => route(model, p.second, p.first, p.third, p.last),
        _ => 0,
    }
}
