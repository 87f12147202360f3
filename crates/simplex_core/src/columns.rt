//! The values of the columns at the last tableau, or the direction in which one of them grows.

ghost use Rattle.std.specs.Prelude.{◌≡◌, ◌<◌, ℕ, None, IfOk, IfSome, length, slice_index_or};
ghost use Rattle.exact_num.specs.Value.{value_of};
ghost use Rattle.written_method.specs.Basis.{IsBasic, IsShaped};
ghost use Rattle.written_method.specs.Values.{column_direction, column_value, row_of_basic};
ghost use Rattle.simplex_core.specs.LastTableaus.{column_lift, value_at_column};

use exact_num::{Frac, ratio};
use int_tableau::Tableau;
use row_core::fraction;
use std::alloc::{AllocError, Global};

/// The row in which each column is basic, if it is.
fn rows_by_column(alloc: Global, tableau: &Tableau) -> Result<Vec<Option<usize>>, AllocError>
    ensures many { IfOk result (λ rows. length rows.items ≡ tableau.now.tableau.columns) }
    ensures rows { IfOk result (λ rows. (c : ℕ) → slice_index_or rows.items c None ≡ row_of_basic c 0 tableau.now.tableau.basics) }
{
    let mut rows = vec![in alloc; None; tableau.columns()]?;
    let mut row = tableau.rows();
    while row > 0 {
        row -= 1;
        rows[tableau.basic(row)] = Some(row);
    }
    Ok(rows)
}

/// The value of a column: what its row leaves it where it is basic, else 0.
fn basic_value(tableau: &Tableau, rows: &[Option<usize>], column: usize) -> Frac
    requires shaped { IsShaped tableau.now.tableau }
    requires basic { IsBasic tableau.now.tableau }
    requires column { column < tableau.now.tableau.columns }
    requires many { length rows.now ≡ tableau.now.tableau.columns }
    requires rows { slice_index_or rows.now column None ≡ row_of_basic column 0 tableau.now.tableau.basics }
    ensures { value_of result ≡ column_value tableau.now.tableau column }
{
    match rows[column] {
        None => fraction(0),
        Some(row) => ratio(tableau.rhs(row), tableau.entry(row, column)),
    }
}

/// A column's part of the direction in which another grows.
fn slope(tableau: &Tableau, rows: &[Option<usize>], growing: usize, column: usize) -> Frac
    requires shaped { IsShaped tableau.now.tableau }
    requires basic { IsBasic tableau.now.tableau }
    requires growing { growing < tableau.now.tableau.columns }
    requires column { column < tableau.now.tableau.columns }
    requires many { length rows.now ≡ tableau.now.tableau.columns }
    requires rows { slice_index_or rows.now column None ≡ row_of_basic column 0 tableau.now.tableau.basics }
    ensures { value_of result ≡ column_direction tableau.now.tableau growing column }
{
    if column == growing {
        return fraction(1);
    }
    match rows[column] {
        None => fraction(0),
        Some(row) => ratio(-tableau.entry(row, growing), tableau.entry(row, column)),
    }
}

/// The value of a column, or its part of the direction in which `growing` grows.
fn column_value(
    tableau: &Tableau,
    rows: &[Option<usize>],
    growing: Option<usize>,
    column: usize,
) -> Frac
    requires shaped { IsShaped tableau.now.tableau }
    requires basic { IsBasic tableau.now.tableau }
    requires growing { IfSome growing (λ e. e < tableau.now.tableau.columns) }
    requires column { column < tableau.now.tableau.columns }
    requires many { length rows.now ≡ tableau.now.tableau.columns }
    requires rows { slice_index_or rows.now column None ≡ row_of_basic column 0 tableau.now.tableau.basics }
    ensures { value_of result ≡ column_lift tableau.now.tableau growing column }
{
    match growing {
        None => basic_value(tableau, rows, column),
        Some(entering) => slope(tableau, rows, entering, column),
    }
}

/// The value of each column, or each column's part of the direction in which `growing` grows.
pub(crate) fn column_values(
    alloc: Global,
    tableau: &Tableau,
    growing: Option<usize>,
) -> Result<Vec<Frac>, AllocError>
    requires shaped { IsShaped tableau.now.tableau }
    requires basic { IsBasic tableau.now.tableau }
    requires growing { IfSome growing (λ e. e < tableau.now.tableau.columns) }
    ensures { IfOk result (λ values. (c : ℕ) → value_at_column values.items c ≡ column_lift tableau.now.tableau growing c) }
{
    let rows = rows_by_column(alloc, tableau)?;
    let mut values = Vec::with_capacity(alloc, tableau.columns())?;
    for column in 0..tableau.columns() {
        values.push(column_value(tableau, &rows, growing, column))?;
    }
    Ok(values)
}
