//! The parameters of which the findings of a rule speak.

ghost use Rattle.std.specs.Prelude.{◌≡◌};
ghost use Rattle.model_sets.specs.Params.{IsParam};
ghost use Rattle.data_warnings.specs.Limits.{greatest_of, least_of};
ghost use Rattle.data_warnings.specs.Words.{ceiling_param, cost_param, emission_limit_param, enabler_param, param_of, series_param};
ghost use Rattle.data_warnings.specs.Yearly.{limit_param};

use crate::rules::{Ceiling, Cost, EmissionLimit, Enabler, Limit, Pair, Rule, Series};
use model_sets::param_numbers::{
    ACCUMULATED_ANNUAL_DEMAND, ANNUAL_EMISSION_LIMIT, AVAILABILITY_FACTOR, CAPACITY_FACTOR,
    CAPACITY_TO_ACTIVITY_UNIT, CAPITAL_COST, DISCOUNT_RATE, DISCOUNT_RATE_IDV, FIXED_COST,
    INPUT_ACTIVITY_RATIO, MODEL_PERIOD_EMISSION_LIMIT, OPERATIONAL_LIFE, OUTPUT_ACTIVITY_RATIO,
    RE_MIN_PRODUCTION_TARGET, RESERVE_MARGIN, RESIDUAL_CAPACITY, SPECIFIED_ANNUAL_DEMAND,
    SPECIFIED_DEMAND_PROFILE, TOTAL_ANNUAL_MAX_CAPACITY, TOTAL_ANNUAL_MAX_CAPACITY_INVESTMENT,
    TOTAL_ANNUAL_MIN_CAPACITY, TOTAL_ANNUAL_MIN_CAPACITY_INVESTMENT,
    TOTAL_TECHNOLOGY_ANNUAL_ACTIVITY_LOWER_LIMIT, TOTAL_TECHNOLOGY_ANNUAL_ACTIVITY_UPPER_LIMIT,
    TOTAL_TECHNOLOGY_MODEL_PERIOD_ACTIVITY_LOWER_LIMIT,
    TOTAL_TECHNOLOGY_MODEL_PERIOD_ACTIVITY_UPPER_LIMIT, TRADE_ROUTE, VARIABLE_COST, YEAR_SPLIT,
};

// The parameter that is the least of a pair.
fn least_of(pair: Pair) -> u8
    ensures param { result ≡ least_of pair }
    ensures listed { IsParam result }
{
    match pair {
        Pair::Residual => RESIDUAL_CAPACITY,
        Pair::Capacity => TOTAL_ANNUAL_MIN_CAPACITY,
        Pair::Investment => TOTAL_ANNUAL_MIN_CAPACITY_INVESTMENT,
        Pair::Activity => TOTAL_TECHNOLOGY_ANNUAL_ACTIVITY_LOWER_LIMIT,
    }
}

/// The parameter that is the greatest.
pub(crate) fn greatest_of(pair: Pair) -> u8
    ensures param { result ≡ greatest_of pair }
    ensures listed { IsParam result }
{
    match pair {
        Pair::Residual | Pair::Capacity => TOTAL_ANNUAL_MAX_CAPACITY,
        Pair::Investment => TOTAL_ANNUAL_MAX_CAPACITY_INVESTMENT,
        Pair::Activity => TOTAL_TECHNOLOGY_ANNUAL_ACTIVITY_UPPER_LIMIT,
    }
}

// The parameter of a cost.
fn cost_param(cost: Cost) -> u8
    ensures param { result ≡ cost_param cost }
    ensures listed { IsParam result }
{
    match cost {
        Cost::Capital => CAPITAL_COST,
        Cost::Fixed => FIXED_COST,
        Cost::Variable => VARIABLE_COST,
    }
}

// The parameter of a series.
fn series_param(series: Series) -> u8
    ensures param { result ≡ series_param series }
    ensures listed { IsParam result }
{
    match series {
        Series::CapitalCost => CAPITAL_COST,
        Series::FixedCost => FIXED_COST,
        Series::VariableCost => VARIABLE_COST,
        Series::SpecifiedAnnualDemand => SPECIFIED_ANNUAL_DEMAND,
        Series::AccumulatedAnnualDemand => ACCUMULATED_ANNUAL_DEMAND,
        Series::ResidualCapacity => RESIDUAL_CAPACITY,
    }
}

// The parameter that a technology needs.
fn enabler_param(enabler: Enabler) -> u8
    ensures param { result ≡ enabler_param enabler }
    ensures listed { IsParam result }
{
    match enabler {
        Enabler::Unit => CAPACITY_TO_ACTIVITY_UNIT,
        Enabler::Availability => AVAILABILITY_FACTOR,
        Enabler::Factors => CAPACITY_FACTOR,
    }
}

// The parameter of a limit.
fn limit_param(limit: Limit) -> u8
    ensures param { result ≡ limit_param limit }
    ensures listed { IsParam result }
{
    match limit {
        Limit::Capacity => TOTAL_ANNUAL_MAX_CAPACITY,
        Limit::Investment => TOTAL_ANNUAL_MAX_CAPACITY_INVESTMENT,
        Limit::Activity => TOTAL_TECHNOLOGY_ANNUAL_ACTIVITY_UPPER_LIMIT,
    }
}

// The parameter of a limit of an emission.
fn emission_limit_param(limit: EmissionLimit) -> u8
    ensures param { result ≡ emission_limit_param limit }
    ensures listed { IsParam result }
{
    match limit {
        EmissionLimit::Annual => ANNUAL_EMISSION_LIMIT,
        EmissionLimit::ModelPeriod => MODEL_PERIOD_EMISSION_LIMIT,
    }
}

// The parameter of upper limits.
fn ceiling_param(ceiling: Ceiling) -> u8
    ensures param { result ≡ ceiling_param ceiling }
    ensures listed { IsParam result }
{
    match ceiling {
        Ceiling::Technology(limit) => limit_param(limit),
        Ceiling::Period => TOTAL_TECHNOLOGY_MODEL_PERIOD_ACTIVITY_UPPER_LIMIT,
        Ceiling::Emission(limit) => emission_limit_param(limit),
    }
}

/// The parameter whose number is odd; where the lines of a rule name none, one of which the rule speaks.
pub(crate) fn param_of(rule: Rule) -> u8
    ensures param { result ≡ param_of rule }
    ensures listed { IsParam result }
{
    match rule {
        Rule::YearSplitSum | Rule::YearGap | Rule::Rounded => YEAR_SPLIT,
        Rule::DiscountRate => DISCOUNT_RATE,
        Rule::UnprofiledDemand | Rule::UnmadeDemand => SPECIFIED_ANNUAL_DEMAND,
        Rule::ProfileSum => SPECIFIED_DEMAND_PROFILE,
        Rule::StarvedTechnology => INPUT_ACTIVITY_RATIO,
        Rule::Disabled(enabler) => enabler_param(enabler),
        Rule::Crossed(pair) => least_of(pair),
        Rule::CrossedPeriod => TOTAL_TECHNOLOGY_MODEL_PERIOD_ACTIVITY_LOWER_LIMIT,
        Rule::Unreachable => TOTAL_TECHNOLOGY_ANNUAL_ACTIVITY_LOWER_LIMIT,
        Rule::ShortLives => OPERATIONAL_LIFE,
        Rule::CoarseRates => DISCOUNT_RATE_IDV,
        Rule::LargeFactor => CAPACITY_FACTOR,
        Rule::LargeAvailability => AVAILABILITY_FACTOR,
        Rule::LargeTarget => RE_MIN_PRODUCTION_TARGET,
        Rule::SmallMargin => RESERVE_MARGIN,
        Rule::NegativeCost(cost) => cost_param(cost),
        Rule::Outlier(series) => series_param(series),
        Rule::OneWayRoute | Rule::EqualRoute | Rule::UnequalRoute => TRADE_ROUTE,
        Rule::ZeroLimits(limit) => limit_param(limit),
        Rule::HighLimits(ceiling) => ceiling_param(ceiling),
        Rule::ZeroEmissions(limit) => emission_limit_param(limit),
        Rule::IdleLimit => ANNUAL_EMISSION_LIMIT,
        Rule::UnusedFuel | Rule::IdleTechnology => OUTPUT_ACTIVITY_RATIO,
    }
}
