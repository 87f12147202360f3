//! The variables that a plan chooses freely.

ghost use Rattle.std.specs.Prelude.{◌≡◌, ◌++◌, IfOk, OnOk, filter};
ghost use Rattle.row_core.specs.Numbers.{variables_of};
ghost use Rattle.written_method.specs.Eliminated.{is_column, column_entries};
ghost use Rattle.variable_elimination.specs.Columns.{AreColumns};

use row_core::kind_numbers::{NEW_CAPACITY, RATE_OF_ACTIVITY, TRADE};
use row_core::{Row, Var};
use std::alloc::{AllocError, Global};

/// The variables RateOfActivity, NewCapacity and Trade of two regions in their order at which the rows have entries, in
/// strictly ascending order.
pub(crate) fn columns_of(alloc: Global, rows: &[Row]) -> Result<Vec<Var>, AllocError>
    ensures { IfOk result (λ columns. AreColumns rows.now columns.items) }
{
    let mut columns = column_entries(alloc, rows)?;
    columns.sort()?;
    columns.dedup();
    Ok(columns)
}

/// Such variables of all entries, row by row.
fn column_entries(alloc: Global, rows: &[Row]) -> Result<Vec<Var>, AllocError>
    ensures { IfOk result (λ columns. columns.items ≡ column_entries rows.now) }
{
    let mut columns = Vec::new(alloc);
    for row in rows {
        add_columns(&mut columns, row)?;
    }
    Ok(columns)
}

/// Adds such variables of a row's entries.
fn add_columns(columns: &mut Vec<Var>, row: &Row) -> Result<(), AllocError>
    ensures { OnOk result (columns.new.items ≡ columns.old.items ++ filter is_column (variables_of row.now.entries.items)) }
{
    for (variable, _) in row.entries.as_slice() {
        if is_column(*variable) {
            columns.push(*variable)?;
        }
    }
    Ok(())
}

/// Whether a plan chooses the variable freely.
fn is_column(variable: Var) -> bool
    ensures { result ≡ is_column variable }
{
    variable.kind == RATE_OF_ACTIVITY
        || variable.kind == NEW_CAPACITY
        || variable.kind == TRADE && variable.index.region < variable.index.other
}
