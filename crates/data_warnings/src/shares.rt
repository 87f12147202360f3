//! Rates and shares that look like per cent, and routes that lead one way.

ghost use Rattle.std.specs.Prelude.{◌≡◌};
ghost use Rattle.data_warnings.specs.Shares.{availability, discount_rate, is_above_one, is_equal_route, is_odd_rate, is_unequal_route, leads_both_ways, leads_one_way, route, target};
ghost use Rattle.named_equations.specs.Within.{IsFuel, IsRegion, IsTechnology, IsYear};

use crate::values::value;
use model_sets::param_numbers::{
    AVAILABILITY_FACTOR, DISCOUNT_RATE, RE_MIN_PRODUCTION_TARGET, TRADE_ROUTE,
};
use param_tables::ModelData;

/// The discount rate of a region.
pub(crate) fn discount_rate(model: &ModelData, r: u16) -> i128
    requires { IsRegion model.now.facts r }
    ensures { result ≡ discount_rate model.now.facts r }
{
    value(model, DISCOUNT_RATE, &[r])
}

/// Whether a discount rate is above 0.25, or between 0 and 0.005.
pub(crate) fn is_odd_rate(rate: i128) -> bool
    ensures { result ≡ is_odd_rate rate }
{
    250_000_000 < rate || 0 < rate && rate < 5_000_000
}

/// Whether a value is above 1.
pub(crate) fn is_above_one(value: i128) -> bool
    ensures { result ≡ is_above_one value }
{
    1_000_000_000 < value
}

/// The part of the year for which a technology is available.
pub(crate) fn availability(model: &ModelData, r: u16, t: u16, y: u16) -> i128
    requires region { IsRegion model.now.facts r }
    requires technology { IsTechnology model.now.facts t }
    requires year { IsYear model.now.facts y }
    ensures { result ≡ availability model.now.facts r t y }
{
    value(model, AVAILABILITY_FACTOR, &[r, t, y])
}

/// The least share of renewable production.
pub(crate) fn target(model: &ModelData, r: u16, y: u16) -> i128
    requires region { IsRegion model.now.facts r }
    requires year { IsYear model.now.facts y }
    ensures { result ≡ target model.now.facts r y }
{
    value(model, RE_MIN_PRODUCTION_TARGET, &[r, y])
}

/// The route by which one region gets a fuel of another.
pub(crate) fn route(model: &ModelData, r: u16, rr: u16, f: u16, y: u16) -> i128
    requires region { IsRegion model.now.facts r }
    requires other { IsRegion model.now.facts rr }
    requires fuel { IsFuel model.now.facts f }
    requires year { IsYear model.now.facts y }
    ensures { result ≡ route model.now.facts r rr f y }
{
    value(model, TRADE_ROUTE, &[r, rr, f, y])
}

/// Whether there is a route from one region to another, and none back.
pub(crate) fn leads_one_way(model: &ModelData, r: u16, rr: u16, f: u16, y: u16) -> bool
    requires region { IsRegion model.now.facts r }
    requires other { IsRegion model.now.facts rr }
    requires fuel { IsFuel model.now.facts f }
    requires year { IsYear model.now.facts y }
    ensures { result ≡ leads_one_way model.now.facts r rr f y }
{
    r != rr && 0 < route(model, r, rr, f, y) && !(0 < route(model, rr, r, f, y))
}

// Whether two regions get the fuel of each other. A pair of regions is looked at once, in their order.
fn leads_both_ways(model: &ModelData, r: u16, rr: u16, f: u16, y: u16) -> bool
    requires region { IsRegion model.now.facts r }
    requires other { IsRegion model.now.facts rr }
    requires fuel { IsFuel model.now.facts f }
    requires year { IsYear model.now.facts y }
    ensures { result ≡ leads_both_ways model.now.facts r rr f y }
{
    r < rr && 0 < route(model, r, rr, f, y) && 0 < route(model, rr, r, f, y)
}

/// Whether the route between two regions is the same both ways, and not 1.
pub(crate) fn is_equal_route(model: &ModelData, r: u16, rr: u16, f: u16, y: u16) -> bool
    requires region { IsRegion model.now.facts r }
    requires other { IsRegion model.now.facts rr }
    requires fuel { IsFuel model.now.facts f }
    requires year { IsYear model.now.facts y }
    ensures { result ≡ is_equal_route model.now.facts r rr f y }
{
    let there = route(model, r, rr, f, y);
    leads_both_ways(model, r, rr, f, y)
        && there == route(model, rr, r, f, y)
        && there != 1_000_000_000
}

/// Whether the two ways of the route between two regions differ.
pub(crate) fn is_unequal_route(model: &ModelData, r: u16, rr: u16, f: u16, y: u16) -> bool
    requires region { IsRegion model.now.facts r }
    requires other { IsRegion model.now.facts rr }
    requires fuel { IsFuel model.now.facts f }
    requires year { IsYear model.now.facts y }
    ensures { result ≡ is_unequal_route model.now.facts r rr f y }
{
    leads_both_ways(model, r, rr, f, y) && route(model, r, rr, f, y) != route(model, rr, r, f, y)
}
