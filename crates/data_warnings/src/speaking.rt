//! When each rule speaks.

ghost use Rattle.std.specs.Prelude.{◌≡◌, IfOk};
ghost use Rattle.data_warnings.specs.Frames.{frame_of};
ghost use Rattle.data_warnings.specs.Speaking.{speaks};
ghost use Rattle.data_warnings.specs.Values.{IsPlace};

use crate::investments::is_coarse;
use crate::limits::{is_crossed, is_crossed_period, is_loose};
use crate::makers::{is_starved, is_unmade, is_unprofiled};
use crate::neighbours::is_outlier;
use crate::places::Place;
use crate::questions::{Question, is_so_somewhere};
use crate::reach::is_unreachable;
use crate::rules::Rule;
use crate::shares::{
    availability, discount_rate, is_above_one, is_equal_route, is_odd_rate, is_unequal_route,
    leads_one_way, target,
};
use crate::sums::{Parts, is_misprofiled, is_off, sum_of};
use crate::uses::{
    has_zero_emissions, has_zero_limit, is_disabled, is_for_none, is_gap, is_idle_limit,
    is_short_lived, is_small_margin, is_unused,
};
use crate::wide::is_used;
use param_tables::ModelData;
use std::alloc::{AllocError, Global};

/// Whether the rule speaks of the place. It may run out of memory.
pub(crate) fn speaks(
    alloc: Global,
    model: &ModelData,
    rule: Rule,
    p: Place,
) -> Result<bool, AllocError>
    requires { IsPlace model.now.facts (frame_of rule) p }
    ensures { IfOk result (λ is. is ≡ speaks model.now rule p) }
{
    match rule {
        Rule::YearSplitSum => Ok(is_off(model, sum_of(model, Parts::YearSplit(p.last)))),
        Rule::YearGap => Ok(is_gap(model, p.last)),
        Rule::DiscountRate => Ok(is_odd_rate(discount_rate(model, p.first))),
        Rule::UnprofiledDemand => Ok(is_unprofiled(model, p.first, p.second, p.last)),
        Rule::ProfileSum => Ok(is_misprofiled(model, p.first, p.second, p.last)),
        Rule::UnmadeDemand => is_unmade(alloc, model, p.first, p.second, p.last),
        Rule::StarvedTechnology => is_starved(alloc, model, p.first, p.second, p.third, p.last),
        Rule::Disabled(enabler) => is_disabled(alloc, model, enabler, p.first, p.second),
        Rule::Crossed(pair) => Ok(is_crossed(model, pair, p.first, p.second, p.last)),
        Rule::CrossedPeriod => Ok(is_crossed_period(model, p.first, p.second)),
        Rule::Unreachable => Ok(is_unreachable(model, p.first, p.second, p.last)),
        Rule::ShortLives => is_short_lived(alloc, model, p.first, p.last),
        Rule::CoarseRates => is_coarse(alloc, model, p.first, p.last),
        Rule::LargeFactor => Ok(is_so_somewhere(
            model,
            Question::LargeFactor(p.first, p.second, p.last),
        )),
        Rule::LargeAvailability => {
            Ok(is_above_one(availability(model, p.first, p.second, p.last)))
        }
        Rule::LargeTarget => Ok(is_above_one(target(model, p.first, p.last))),
        Rule::SmallMargin => Ok(is_small_margin(model, p.first, p.last)),
        Rule::NegativeCost(cost) => {
            Ok(is_loose(model, cost, p.first, p.second, p.third, p.last))
        }
        Rule::Outlier(series) => {
            Ok(is_outlier(model, series, p.first, p.second, p.third, p.last))
        }
        Rule::OneWayRoute => Ok(leads_one_way(model, p.first, p.second, p.third, p.last)),
        Rule::EqualRoute => Ok(is_equal_route(model, p.first, p.second, p.third, p.last)),
        Rule::UnequalRoute => { Ok(is_unequal_route(model, p.first, p.second, p.third, p.last)) }
        Rule::ZeroLimits(limit) => has_zero_limit(alloc, model, limit, p.first, p.last),
        Rule::ZeroEmissions(limit) => has_zero_emissions(alloc, model, limit, p.first, p.last),
        Rule::HighLimits(ceiling) => is_for_none(alloc, model, ceiling, p.first),
        Rule::IdleLimit => is_idle_limit(alloc, model, p.first, p.second),
        Rule::UnusedFuel => is_unused(alloc, model, p.first, p.second),
        Rule::IdleTechnology => Ok(!is_used(alloc, model, p.first)?),
        Rule::Rounded => Ok(model.rounded() > 0),
    }
}
