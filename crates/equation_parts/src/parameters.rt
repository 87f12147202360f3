//! The parameters that stand in equations as they are given, as fractions, by name. A subscript is a position in its
//! set. CapacityOfOneTechnologyUnit stands in no equation; DiscountRate, DepreciationMethod and OperationalLife stand
//! in none as fractions.

ghost use Rattle.std.specs.Prelude.{◌≡◌, pos, ◌<ℤ◌};
ghost use Rattle.model_sets.specs.Data.{IsUsedParam};
ghost use Rattle.row_core.specs.Amounts.{Billionths};
ghost use Rattle.row_core.specs.Calculated.{known, number_of};
ghost use Rattle.named_equations.specs.Parameters.{year_split, trade_route, accumulated_annual_demand, annual_exogenous_emission, annual_emission_limit, model_period_exogenous_emission, model_period_emission_limit, value_of};
ghost use Rattle.named_equations.specs.Within.{IsRegion, IsSlice, IsFuel, IsEmission, IsYear};
ghost use Rattle.param_tables.specs.Positions.{IsIndexOf, names_at};

use exact_num::Frac;
use model_sets::param_numbers::{
    ACCUMULATED_ANNUAL_DEMAND, ANNUAL_EMISSION_LIMIT, ANNUAL_EXOGENOUS_EMISSION,
    MODEL_PERIOD_EMISSION_LIMIT, MODEL_PERIOD_EXOGENOUS_EMISSION, TRADE_ROUTE, YEAR_SPLIT,
};
use param_tables::ModelData;

/// The value of a parameter at positions in the sets of its subscripts.
pub fn value(model: &ModelData, param: u8, index: &[u16]) -> Option<Frac>
    requires used { IsUsedParam model.now.facts param }
    requires index { IsIndexOf model.now.facts.sets param index.now }
    ensures { known result ≡ number_of (Billionths (value_of model.now.facts param (names_at model.now.facts.sets param index.now))) }
{
    Some(model.at(param, index))
}

/// YearSplit[l,y], which is above 0.
pub fn year_split(model: &ModelData, l: u16, y: u16) -> Option<Frac>
    requires slice { IsSlice model.now.facts l }
    requires year { IsYear model.now.facts y }
    ensures number { known result ≡ number_of (Billionths (year_split model.now.facts l y)) }
    ensures positive { pos 0 <ℤ year_split model.now.facts l y }
{
    Some(model.at(YEAR_SPLIT, &[l, y]))
}

/// TradeRoute[r,rr,f,y].
pub fn trade_route(model: &ModelData, r: u16, rr: u16, f: u16, y: u16) -> Option<Frac>
    requires region { IsRegion model.now.facts r }
    requires other { IsRegion model.now.facts rr }
    requires fuel { IsFuel model.now.facts f }
    requires year { IsYear model.now.facts y }
    ensures { known result ≡ number_of (Billionths (trade_route model.now.facts r rr f y)) }
{
    Some(model.at(TRADE_ROUTE, &[r, rr, f, y]))
}

/// AccumulatedAnnualDemand[r,f,y].
pub fn accumulated_annual_demand(model: &ModelData, r: u16, f: u16, y: u16) -> Option<Frac>
    requires region { IsRegion model.now.facts r }
    requires fuel { IsFuel model.now.facts f }
    requires year { IsYear model.now.facts y }
    ensures { known result ≡ number_of (Billionths (accumulated_annual_demand model.now.facts r f y)) }
{
    Some(model.at(ACCUMULATED_ANNUAL_DEMAND, &[r, f, y]))
}

/// AnnualExogenousEmission[r,e,y].
pub fn annual_exogenous_emission(model: &ModelData, r: u16, e: u16, y: u16) -> Option<Frac>
    requires region { IsRegion model.now.facts r }
    requires emission { IsEmission model.now.facts e }
    requires year { IsYear model.now.facts y }
    ensures { known result ≡ number_of (Billionths (annual_exogenous_emission model.now.facts r e y)) }
{
    Some(model.at(ANNUAL_EXOGENOUS_EMISSION, &[r, e, y]))
}

/// AnnualEmissionLimit[r,e,y].
pub fn annual_emission_limit(model: &ModelData, r: u16, e: u16, y: u16) -> Option<Frac>
    requires region { IsRegion model.now.facts r }
    requires emission { IsEmission model.now.facts e }
    requires year { IsYear model.now.facts y }
    ensures { known result ≡ number_of (Billionths (annual_emission_limit model.now.facts r e y)) }
{
    Some(model.at(ANNUAL_EMISSION_LIMIT, &[r, e, y]))
}

/// ModelPeriodExogenousEmission[r,e].
pub fn model_period_exogenous_emission(model: &ModelData, r: u16, e: u16) -> Option<Frac>
    requires region { IsRegion model.now.facts r }
    requires emission { IsEmission model.now.facts e }
    ensures { known result ≡ number_of (Billionths (model_period_exogenous_emission model.now.facts r e)) }
{
    Some(model.at(MODEL_PERIOD_EXOGENOUS_EMISSION, &[r, e]))
}

/// ModelPeriodEmissionLimit[r,e].
pub fn model_period_emission_limit(model: &ModelData, r: u16, e: u16) -> Option<Frac>
    requires region { IsRegion model.now.facts r }
    requires emission { IsEmission model.now.facts e }
    ensures { known result ≡ number_of (Billionths (model_period_emission_limit model.now.facts r e)) }
{
    Some(model.at(MODEL_PERIOD_EMISSION_LIMIT, &[r, e]))
}
