//! The entries of rows, column by column.

ghost use Rattle.std.specs.Prelude.{◌≡◌, true, Some, is_some, IfOk, OnOk};
ghost use Rattle.row_core.specs.Columns.{row_in_column};
ghost use Rattle.variable_elimination.specs.Cells.{AreEmpty, AreFollowed, HaveColumns, IsNextEmpty, cell_in, cells_at};

use row_core::{Row, RowName, Var};
use std::alloc::{AllocError, Global};
use std::collections::BTreeMap;

/// For each variable the numbers that rows have at it, with the rows' names, in the order of rows.
pub(crate) type Columns = BTreeMap<Var, Vec<(RowName, i128)>>;

/// The columns of these variables, made in one pass over the entries of all rows.
pub(crate) fn columns_at(
    alloc: Global,
    rows: &[Row],
    variables: &[Option<Var>],
) -> Result<Columns, AllocError>
    ensures { IfOk result (HaveColumns variables.now rows.now) }
{
    let mut columns = empty_columns(alloc, variables)?;
    for row in rows {
        add_row(&mut columns, row)?;
    }
    Ok(columns)
}

/// A column without entries for each of these variables.
fn empty_columns(alloc: Global, variables: &[Option<Var>]) -> Result<Columns, AllocError>
    ensures { IfOk result (AreEmpty variables.now) }
{
    let mut columns = BTreeMap::new(alloc);
    for variable in variables {
        add_empty(alloc, &mut columns, *variable)?;
    }
    Ok(columns)
}

/// Adds a column without entries, if a variable is given.
fn add_empty(alloc: Global, columns: &mut Columns, variable: Option<Var>) -> Result<(), AllocError>
    ensures { OnOk result (IsNextEmpty variable columns.old columns.new) }
{
    let Some(variable) = variable else {
        return Ok(());
    };
    let _ = columns.insert(variable, Vec::new(alloc))?;
    Ok(())
}

/// Adds the entries of a row to those columns that there are.
fn add_row(columns: &mut Columns, row: &Row) -> Result<(), AllocError>
    ensures { OnOk result (AreFollowed (λ v. row_in_column v row.now) columns.old columns.new) }
{
    for entry in row.entries.as_slice() {
        add_cell(columns, row.name, entry)?;
    }
    Ok(())
}

/// Adds one entry, where there is a column for it.
fn add_cell(columns: &mut Columns, name: RowName, entry: &(Var, i128)) -> Result<(), AllocError>
    ensures { OnOk result (AreFollowed (cell_in entry.now.0 name entry.now.1) columns.old columns.new) }
{
    let Some(column) = columns.get_mut(&entry.0) else {
        return Ok(());
    };
    column.push((name, entry.1))?;
    Ok(())
}

/// The column of a variable that has one.
pub(crate) fn column_of(columns: &Columns, variable: Var) -> &[(RowName, i128)]
    requires { is_some (cells_at columns.now variable) ≡ true }
    ensures { cells_at columns.now variable ≡ Some result.now }
{
    match columns.get(&variable) {
        Some(column) => column.as_slice(),
        None => unreachable!(),
    }
}
