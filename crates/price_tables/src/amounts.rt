//! The numbers of a row.

ghost use Rattle.std.specs.Prelude.{◌≡◌, if◌then◌else◌};
ghost use Rattle.std.specs.Option.{option_map};
ghost use Rattle.exact_num.specs.Value.{value_of};
ghost use Rattle.price_tables.specs.PriceAmounts.{has_relative_limit, limit_of, percent_at, percent_of, price_of};

use exact_num::{Frac, div, mul, ratio};
use row_core::equation_numbers::{RE4, RM3};
use row_core::{Multipliers, Row, Var, fraction, number_of};

/// The multiplier of a row times the row's entry at a variable. `None` where the product doesn't fit 128 bits.
pub(crate) fn price_of(row: &Row, multipliers: &Multipliers, variable: Var) -> Option<Frac>
    ensures { option_map value_of result ≡ price_of multipliers.now row.now variable }
{
    let entry = number_of(&row.entries, variable);
    mul(multipliers.value(row.name), fraction(entry)).ok()
}

/// The right side of a row over its entry at a variable: in the data's unit. `None` where the row hasn't the variable, or the right
/// side isn't a number of the data.
pub(crate) fn limit_of(row: &Row, variable: Var) -> Option<Frac>
    ensures { option_map value_of result ≡ limit_of row.now variable }
{
    let entry = number_of(&row.entries, variable);
    if has_relative_limit(row.name.eq) || entry == 0 {
        None
    } else {
        Some(ratio(row.rhs, entry))
    }
}

// Whether the limit of a row of this equation is a part of what else the plan has.
fn has_relative_limit(eq: u8) -> bool
    ensures { result ≡ has_relative_limit eq }
{
    eq == RM3 || eq == RE4
}

/// What one per cent more of a limit saves at most, at this price. `None` where there is none of the two, or a number doesn't fit.
pub(crate) fn percent_of(price: Option<Frac>, limit: Option<Frac>) -> Option<Frac>
    ensures { option_map value_of result ≡ percent_of (option_map value_of price) (option_map value_of limit) }
{
    percent_at(price?, limit?)
}

// The same of a price and a limit.
fn percent_at(price: Frac, limit: Frac) -> Option<Frac>
    ensures { option_map value_of result ≡ percent_at (value_of price) (value_of limit) }
{
    let whole = mul(price, limit).ok()?;
    div(whole, fraction(-100)).ok()
}
