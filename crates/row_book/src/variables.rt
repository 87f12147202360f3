//! The variables of rows, each once and in order.

ghost use Rattle.std.specs.Prelude.{◌≡◌, ◌++◌, IfOk, OnOk};
ghost use Rattle.row_core.specs.Numbers.{variables_of};
ghost use Rattle.row_core.specs.RowLists.{AreVariablesOf, entry_variables};
ghost use Rattle.row_book.specs.Tallies.{AreSortedVariables};

use crate::key_order::sort_pieces;
use row_core::{Row, Var};
use std::alloc::{AllocError, Global};

/// The variables at which the rows have entries, in strictly ascending order.
pub(crate) fn variables_of_rows(alloc: Global, rows: &[Row]) -> Result<Vec<Var>, AllocError>
    ensures { IfOk result (λ vars. AreVariablesOf rows.now vars.items) }
{
    let mut vars = entry_variables(alloc, rows)?;
    match sort_variables(&mut vars) {
        Ok(()) => Ok(vars),
        Err(fail) => Err(fail),
    }
}

/// Sorts variables, and leaves out those that repeat.
pub(crate) fn sort_variables(vars: &mut Vec<Var>) -> Result<(), AllocError>
    ensures { OnOk result (AreSortedVariables vars.old.items vars.new.items) }
{
    let alloc = *vars.allocator();
    sort_pieces(alloc, vars)?;
    vars.sort()?;
    vars.dedup();
    vars.shrink_to_fit();
    Ok(())
}

/// The variables of all entries, row by row.
fn entry_variables(alloc: Global, rows: &[Row]) -> Result<Vec<Var>, AllocError>
    ensures { IfOk result (λ vars. vars.items ≡ entry_variables rows.now) }
{
    let mut vars = Vec::new(alloc);
    match add_all_variables(&mut vars, rows) {
        Ok(()) => Ok(vars),
        Err(fail) => Err(fail),
    }
}

/// Adds the variables of all entries, row by row.
pub(crate) fn add_all_variables(vars: &mut Vec<Var>, rows: &[Row]) -> Result<(), AllocError>
    ensures { OnOk result (vars.new.items ≡ vars.old.items ++ entry_variables rows.now) }
{
    for row in rows {
        add_variables(vars, row)?;
    }
    Ok(())
}

/// Adds the variables of a row's entries.
fn add_variables(vars: &mut Vec<Var>, row: &Row) -> Result<(), AllocError>
    ensures { OnOk result (vars.new.items ≡ vars.old.items ++ variables_of row.now.entries.items) }
{
    for (var, _) in row.entries.as_slice() {
        vars.push(*var)?;
    }
    Ok(())
}
