//! What an investment comes to that is spread over a technology's life.

ghost use Rattle.std.specs.Prelude.{◌≡◌, ◌≤◌, ◌^◌, ◌*◌, true, IfOk};
ghost use Rattle.discount_factors.specs.Factors.{IsPlaces};
ghost use Rattle.named_equations.specs.Within.{IsRegion, IsTechnology};
ghost use Rattle.data_warnings.specs.Investments.{are_far, is_coarse, spread_worth};

use crate::yearly::{Yearly, is_ever_so};
use discount_factors::{Factors, recovery};
use equation_parts::whole_numbers::{discount_rate, operational_life, own_rate};
use param_tables::ModelData;
use std::alloc::{AllocError, Global};

/// Whether the technology's investment is spread over its life, and comes to more or less by factors of 6 decimal places than by those
/// of 9, by more than a millionth. It may run out of memory.
pub(crate) fn is_coarse(
    alloc: Global,
    model: &ModelData,
    r: u16,
    t: u16,
) -> Result<bool, AllocError>
    requires region { IsRegion model.now.facts r }
    requires technology { IsTechnology model.now.facts t }
    ensures { IfOk result (λ is. is ≡ is_coarse model.now.facts r t) }
{
    if !model.second() || !is_ever_so(alloc, model, Yearly::Costs(r, t))? {
        return Ok(false);
    }
    let six = spread_worth(alloc, model, 6, r, t)?;
    let nine = spread_worth(alloc, model, 9, r, t)?;
    Ok(are_far(six, nine))
}

// Whether what an investment of 1 comes to by 6 places and by 9 differs by more than a millionth.
fn are_far(six: u128, nine: u128) -> bool
    requires six { six ≤ 2 * 10 ^ 20 }
    requires nine { nine ≤ 2 * 10 ^ 20 }
    ensures { result ≡ are_far six nine }
{
    let scaled = six * 1_000_000_000_000;
    nine * 1_000_001 < scaled || scaled < nine * 999_999
}

// What an investment of 1 comes to, by factors of so many decimal places.
fn spread_worth(
    alloc: Global,
    model: &ModelData,
    places: u8,
    r: u16,
    t: u16,
) -> Result<u128, AllocError>
    requires second { model.now.facts.second ≡ true }
    requires places { IsPlaces places }
    requires region { IsRegion model.now.facts r }
    requires technology { IsTechnology model.now.facts t }
    ensures worth { IfOk result (λ worth. worth ≡ spread_worth places model.now.facts r t) }
    ensures most { IfOk result (λ worth. worth ≤ 2 * 10 ^ 20) }
{
    let life = operational_life(model, r, t);
    let factors = Factors::new(alloc, discount_rate(model, r), 0, life, places)?;
    let part = recovery(own_rate(model, r, t), life, places);
    let years = factors.annuity(life);
    Ok(part as u128 * years as u128)
}
