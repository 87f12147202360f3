//! The sums of columns: multiplier times entry, in the order of rows.

ghost use Rattle.std.specs.Prelude.{◌≡◌, ℕ, ◌<◌, pos, IsTrue, IfOk, length, if◌then◌else◌};
ghost use Rattle.std.specs.Ordering.{is_eq};
ghost use Rattle.exact_num.specs.Range.{InRange};
ghost use Rattle.exact_num.specs.Rational.{whole};
ghost use Rattle.exact_num.specs.Value.{value_of};
ghost use Rattle.row_core.specs.Numbers.{ascends};
ghost use Rattle.row_core.specs.Order.{var_cmp, row_name_cmp};
ghost use Rattle.row_core.specs.Plans.{value_in};
ghost use Rattle.certificate_checker.specs.ColumnSums.{seen, with_term, continued, variable_at, sum_at, entries_at, AreColumnSums};

use exact_num::Frac;
use row_core::{Multipliers, Row, Var, add_term, fraction};
use std::alloc::{AllocError, Global};

/// The sum of each column, by one pass over the entries of all rows; none where a number that is formed doesn't fit.
pub(crate) fn column_sums(
    alloc: Global,
    rows: &[Row],
    vars: &[Var],
    multipliers: &Multipliers,
) -> Result<Vec<Option<Frac>>, AllocError>
    requires { IsTrue (ascends var_cmp vars.now) }
    ensures { IfOk result (λ sums. AreColumnSums rows.now (value_in row_name_cmp multipliers.now) vars.now sums.items) }
{
    let mut sums = zeros(alloc, vars)?;
    for row in rows {
        add_row(&mut sums, vars, row, multipliers);
    }
    Ok(sums)
}

/// A sum of 0 for each variable.
fn zeros(alloc: Global, vars: &[Var]) -> Result<Vec<Option<Frac>>, AllocError>
    ensures many { IfOk result (λ sums. length sums.items ≡ length vars.now) }
    ensures each { IfOk result (λ sums. (k : ℕ) → k < length vars.now → sum_at sums.items k ≡ Some (whole (pos 0))) }
{
    let zero = Some(fraction(0));
    let mut sums = Vec::with_capacity(alloc, vars.len())?;
    for variable in vars {
        sums.push(zero)?;
    }
    Ok(sums)
}

/// Adds the entries of a row, each times the row's multiplier, to the sums of their columns.
fn add_row(sums: &mut [Option<Frac>], vars: &[Var], row: &Row, multipliers: &Multipliers)
    requires ascending { IsTrue (ascends var_cmp vars.now) }
    requires many { length sums.old ≡ length vars.now }
    ensures { (k : ℕ) → k < length vars.now
        → sum_at sums.new k ≡ continued (value_in row_name_cmp multipliers.now) (sum_at sums.old k) (entries_at row.now.name (variable_at vars.now k) row.now.entries.items) }
{
    let multiplier = multipliers.value(row.name);
    for (variable, number) in &row.entries {
        add_entry(sums, vars, *variable, *number, multiplier);
    }
}

/// Adds a number times a multiplier to the sum of a variable's column.
fn add_entry(sums: &mut [Option<Frac>], vars: &[Var], variable: Var, number: i128, multiplier: Frac)
    requires ascending { IsTrue (ascends var_cmp vars.now) }
    requires many { length sums.old ≡ length vars.now }
    requires fits { InRange number }
    ensures { (k : ℕ) → k < length vars.now
        → sum_at sums.new k ≡ (if is_eq (var_cmp variable (variable_at vars.now k)) then with_term (sum_at sums.old k) number (value_of multiplier) else sum_at sums.old k) }
{
    if let Ok(at) = vars.binary_search(&variable) {
        sums[at] = with_product(sums[at], number, multiplier);
    }
}

/// A sum with a number times a multiplier; none where there is none, or a number that is formed doesn't fit.
fn with_product(sum: Option<Frac>, number: i128, multiplier: Frac) -> Option<Frac>
    requires { InRange number }
    ensures { seen result ≡ with_term (seen sum) number (value_of multiplier) }
{
    match sum {
        Some(sum) => add_term(sum, number, multiplier).ok(),
        None => None,
    }
}
