//! What the sides of a row differ by at a plan.

ghost use Rattle.std.specs.Prelude.{◌≡◌, ℤ, pos, ◌-ℤ◌, ◌*ℤ◌, true, false, is_ok, IfOk, IfErr, OnOk};
ghost use Rattle.exact_num.specs.Range.{InRange, all_fit};
ghost use Rattle.exact_num.specs.Rational.{plus, times, whole};
ghost use Rattle.exact_num.specs.Value.{value_of};
ghost use Rattle.row_core.specs.declared.Var.{Var};
ghost use Rattle.row_core.specs.Rows.{row_sum};
ghost use Rattle.row_core.specs.Values.{IsOver};
ghost use Rattle.row_core.specs.Order.{var_cmp};
ghost use Rattle.row_core.specs.Plans.{value_in};
ghost use Rattle.row_core.specs.Evaluated.{term_formed, evaluated, evaluated_formed, AreOver};

use crate::Row;
use crate::place::Place;
use crate::plans::Plan;
use exact_num::{Frac, TooWide, add, mul, sub};

/// The sum of entry times value, less the right side. `Err(place)` comes exactly where a product, a sum or the last
/// difference forms a number that doesn't fit.
pub fn eval(row: &Row, plan: &Plan, place: Place) -> Result<Frac, Place>
    ensures value { IfOk result (λ rest. value_of rest ≡ evaluated (value_in var_cmp plan.now) row.now.entries.items row.now.rhs) }
    ensures fits { OnOk result (all_fit (evaluated_formed (value_in var_cmp plan.now) row.now.entries.items row.now.rhs) ≡ true) }
    ensures stopped { IfErr result (λ at. (at ≡ place) × (all_fit (evaluated_formed (value_in var_cmp plan.now) row.now.entries.items row.now.rhs) ≡ false)) }
    ensures means { (q : ℤ) (x : Var → ℤ) → AreOver q x (value_in var_cmp plan.now) → IfOk result (λ rest. IsOver q (value_of rest) (row_sum x row.now.entries.items -ℤ (row.now.rhs *ℤ q))) }
{
    eval_against(row, row.rhs, plan, place)
}

/// The same with another right side in place of the row's.
pub fn eval_against(row: &Row, right: i128, plan: &Plan, place: Place) -> Result<Frac, Place>
    requires { InRange right }
    ensures value { IfOk result (λ rest. value_of rest ≡ evaluated (value_in var_cmp plan.now) row.now.entries.items right) }
    ensures fits { OnOk result (all_fit (evaluated_formed (value_in var_cmp plan.now) row.now.entries.items right) ≡ true) }
    ensures stopped { IfErr result (λ at. (at ≡ place) × (all_fit (evaluated_formed (value_in var_cmp plan.now) row.now.entries.items right) ≡ false)) }
    ensures means { (q : ℤ) (x : Var → ℤ) → AreOver q x (value_in var_cmp plan.now) → IfOk result (λ rest. IsOver q (value_of rest) (row_sum x row.now.entries.items -ℤ (right *ℤ q))) }
{
    let mut sum = fraction(0);
    for entry in &row.entries {
        let Ok(next) = add_term(sum, entry.1, plan.value(entry.0)) else {
            return Err(place);
        };
        sum = next;
    }
    let Ok(rest) = sub(sum, fraction(right)) else {
        return Err(place);
    };
    Ok(rest)
}

/// A sum, and a number times a value. `TooWide` comes exactly where the product or the sum forms a number that doesn't fit.
pub fn add_term(sum: Frac, number: i128, value: Frac) -> Result<Frac, TooWide>
    requires { InRange number }
    ensures refused { is_ok result ≡ all_fit (term_formed (value_of sum) number (value_of value)) }
    ensures value { IfOk result (λ total. value_of total ≡ plus (value_of sum) (times (whole number) (value_of value))) }
{
    let product = mul(fraction(number), value)?;
    add(sum, product)
}

/// A whole number as a fraction.
pub fn fraction(n: i128) -> Frac
    requires { InRange n }
    ensures { value_of result ≡ whole n }
{
    Frac { num: n, den: 1 }
}
