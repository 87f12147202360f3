//! The parameters that are whole numbers, and rates as whole numbers of billionths.

ghost use Rattle.std.specs.Prelude.{◌≡◌, ◌<◌, ◌≤◌, ◌≤ℤ◌, nat_lt, pos, true, unsigned_abs, unwrap_or};
ghost use Rattle.model_sets.specs.Data.{IsUsedParam, value_at};
ghost use Rattle.model_sets.specs.Params.{range_of};
ghost use Rattle.model_sets.specs.declared.params.Range.TheVariants.{ZeroToOne};
ghost use Rattle.named_equations.specs.WrittenFactors.{life_of, method_of, own_rate_of, rate_of};
ghost use Rattle.param_tables.specs.Positions.{IsIndexOf, names_at};
ghost use Rattle.named_equations.specs.Within.{IsRegion, IsTechnology};

use model_sets::param_numbers::{
    DEPRECIATION_METHOD, DISCOUNT_RATE, DISCOUNT_RATE_IDV, OPERATIONAL_LIFE,
};
use param_tables::ModelData;

/// One, in billionths.
const BILLION: i128 = 1_000_000_000;

/// OperationalLife[r,t], in years, from 1 to 200. It is a whole number, so its denominator is 1.
pub fn operational_life(model: &ModelData, r: u16, t: u16) -> u16
    requires region { IsRegion model.now.facts r }
    requires technology { IsTechnology model.now.facts t }
    ensures exact { result ≡ life_of model.now.facts r t }
    ensures some { 0 < result }
    ensures most { result ≤ 200 }
{
    model.at(OPERATIONAL_LIFE, &[r, t]).num as u16
}

/// DepreciationMethod[r], 1 or 2. It is a whole number, so its denominator is 1.
pub fn depreciation_method(model: &ModelData, r: u16) -> u8
    requires region { IsRegion model.now.facts r }
    ensures { result ≡ method_of model.now.facts r }
{
    model.at(DEPRECIATION_METHOD, &[r]).num as u8
}

/// Whether DiscountRate[r] is above 0.
pub fn has_rate(model: &ModelData, r: u16) -> bool
    requires region { IsRegion model.now.facts r }
    ensures { result ≡ nat_lt 0 (rate_of model.now.facts r) }
{
    model.at(DISCOUNT_RATE, &[r]).num > 0
}

/// DiscountRate[r], in billionths, from 0 to 10^9.
pub fn discount_rate(model: &ModelData, r: u16) -> i128
    requires region { IsRegion model.now.facts r }
    ensures least { pos 0 ≤ℤ result }
    ensures most { result ≤ℤ pos 1000000000 }
    ensures exact { unsigned_abs result ≡ rate_of model.now.facts r }
{
    billionths(model, DISCOUNT_RATE, &[r])
}

/// DiscountRateIdv[r,t], in billionths, from 0 to 10^9; of data of profile 2, which have it.
pub fn own_rate(model: &ModelData, r: u16, t: u16) -> i128
    requires second { model.now.facts.second ≡ true }
    requires region { IsRegion model.now.facts r }
    requires technology { IsTechnology model.now.facts t }
    ensures least { pos 0 ≤ℤ result }
    ensures most { result ≤ℤ pos 1000000000 }
    ensures exact { unsigned_abs result ≡ own_rate_of model.now.facts r t }
{
    billionths(model, DISCOUNT_RATE_IDV, &[r, t])
}

/// A value of a parameter that lies between 0 and 1, in billionths.
fn billionths(model: &ModelData, param: u8, index: &[u16]) -> i128
    requires used { IsUsedParam model.now.facts param }
    requires index { IsIndexOf model.now.facts.sets param index.now }
    requires range { range_of param ≡ ZeroToOne }
    ensures least { pos 0 ≤ℤ result }
    ensures most { result ≤ℤ pos 1000000000 }
    ensures exact { result ≡ unwrap_or (value_at model.now.facts param (names_at model.now.facts.sets param index.now)) (pos 0) }
{
    let value = model.at(param, index);
    value.num * (BILLION / value.den)
}
