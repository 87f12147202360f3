//! A row without a variable.

ghost use Rattle.std.specs.Prelude.{◌≡◌, ◌∷◌, true, pos, ◌<ℤ◌, int_div, IsTrue, IfOk, IfErr, OnOk};
ghost use Rattle.exact_num.specs.Range.{InRange, all_fit};
ghost use Rattle.exact_num.specs.Rational.{lowest};
ghost use Rattle.exact_num.specs.Value.{value_of};
ghost use Rattle.row_core.specs.declared.Sense.TheVariants.{Equal};
ghost use Rattle.row_core.specs.Numbers.{numbers_of, variables_of, ascends, none_zero};
ghost use Rattle.row_core.specs.Order.{var_cmp};
ghost use Rattle.row_core.specs.Rows.{number_at};
ghost use Rattle.row_core.specs.Stops.{IsStop};
ghost use Rattle.row_core.specs.Written.{row_divisor, entries_divided};
ghost use Rattle.row_core.specs.Forms.{form_of};
ghost use Rattle.row_core.specs.Combined.{combined_formed, undivided_formed};
ghost use Rattle.row_core.specs.Scaled.{IsScaled, SaysTheSameUnder, IsMade, IsCombined};

use crate::dividing::{divide_all, divisor_of, quotient};
use crate::merging::{less, merge, number_of};
use crate::place::{Place, Stopped};
use crate::{Row, RowName, Sense, Var};
use exact_num::{Frac, gcd, ratio};
use std::alloc::Global;

/// Removes a variable from a row by the variable's definition, an equation in which it has a positive entry.
///
/// With `p` the definition's number at the variable, `q` the row's and `g` their greatest common divisor, the row is
/// `p/g` times the row less `q/g` times the definition, divided by the common divisor of its numbers; and with it comes
/// the positive fraction of `p/g` and that divisor. `Width(place)` comes exactly where a product or a difference that is
/// formed doesn't fit; any other refusal means that memory ran out.
pub fn combine(
    alloc: Global,
    row: &Row,
    definition: &Row,
    variable: Var,
    place: Place,
) -> Result<(Row, Frac), Stopped>
    requires defines { definition.now.sense ≡ Equal }
    requires positive { pos 0 <ℤ number_at definition.now.entries.items variable }
    ensures combined { IfOk result (IsCombined row.now definition.now variable) }
    ensures fits { OnOk result (all_fit (combined_formed (form_of row.now) (form_of definition.now) variable) ≡ true) }
    ensures stopped { IfErr result (IsStop place (all_fit (combined_formed (form_of row.now) (form_of definition.now) variable))) }
    ensures says { IfOk result (λ made. SaysTheSameUnder row.now definition.now made.0) }
    ensures removed { IfOk result (λ made. number_at made.0.entries.items variable ≡ pos 0) }
    ensures scaled { IfOk result (λ made. IsScaled row.now definition.now (value_of made.1) made.0) }
{
    let own = number_of(&definition.entries, variable);
    let number = number_of(&row.entries, variable);
    let divisor = gcd(own, number);
    combine_by(
        alloc,
        row,
        definition,
        place,
        quotient(own, divisor),
        quotient(number, divisor),
    )
}

/// `a` times a row less `b` times a definition, divided, with the fraction of `a` and the divisor.
fn combine_by(
    alloc: Global,
    row: &Row,
    definition: &Row,
    place: Place,
    a: i128,
    b: i128,
) -> Result<(Row, Frac), Stopped>
    requires a { InRange a }
    requires b { InRange b }
    ensures made { IfOk result (IsMade a b row.now definition.now) }
    ensures fits { OnOk result (all_fit (undivided_formed a b (form_of row.now) (form_of definition.now)) ≡ true) }
    ensures stopped { IfErr result (IsStop place (all_fit (undivided_formed a b (form_of row.now) (form_of definition.now)))) }
{
    let entries = merge(alloc, place, a, b, &row.entries, &definition.entries)?;
    let Ok(rhs) = less(a, b, row.rhs, definition.rhs) else {
        return Err(Stopped::Width(place));
    };
    Ok(divided(row.name, row.sense, entries, rhs, a))
}

/// A row divided by the greatest common divisor of its numbers, with the fraction of `factor` and that divisor.
fn divided(
    name: RowName,
    sense: Sense,
    mut entries: Vec<(Var, i128)>,
    right: i128,
    factor: i128,
) -> (Row, Frac)
    requires ascending { IsTrue (ascends var_cmp (variables_of entries.items)) }
    requires nonzero { IsTrue (none_zero (numbers_of entries.items)) }
    requires right_fits { InRange right }
    requires entries_fit { all_fit (numbers_of entries.items) ≡ true }
    requires factor_fits { InRange factor }
    ensures name { result.0.name ≡ name }
    ensures sense { result.0.sense ≡ sense }
    ensures entries { result.0.entries.items ≡ entries_divided (row_divisor (right ∷ numbers_of entries.items)) entries.items }
    ensures right_side { result.0.rhs ≡ int_div right (pos (row_divisor (right ∷ numbers_of entries.items))) }
    ensures scale { value_of result.1 ≡ lowest factor (pos (row_divisor (right ∷ numbers_of entries.items))) }
{
    let divisor = divisor_of(right, &entries);
    divide_all(&mut entries, divisor);
    let row = Row {
        name,
        sense,
        entries,
        rhs: quotient(right, divisor),
    };
    (row, ratio(factor, divisor))
}
