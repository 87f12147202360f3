//! The variables of all rows: those of rows that are let go are gathered as they come, and those of rows that are held are
//! taken from them at the end, so that no list of these takes memory while rows are made.

ghost use Rattle.std.specs.Prelude.{◌++◌, OnOk};
ghost use Rattle.row_core.specs.RowLists.{entry_variables};
ghost use Rattle.row_book.specs.Held.{held_variables};
ghost use Rattle.row_book.specs.Tallies.{AreSameVariables, AreSortedVariables};

use crate::held_rows::HeldRows;
use crate::kind_variables::add_by_kind;
use crate::variables::sort_variables;
use row_core::{Row, Var};
use std::alloc::AllocError;

/// How many variables are gathered at least before they are sorted again.
const FEW: usize = 65_536;

/// Adds the variables of rows, and leaves out those that repeat if these rows at least double a long list.
pub(crate) fn gather_variables(vars: &mut Vec<Var>, rows: &[Row]) -> Result<(), AllocError>
    ensures { OnOk result (AreSameVariables vars.new.items (vars.old.items ++ entry_variables rows.now)) }
{
    let before = vars.len();
    match add_by_kind(vars, rows) {
        Ok(()) => {}
        Err(fail) => return Err(fail),
    }
    // At least half of them are of these rows.
    if vars.len() > FEW && vars.len() / 2 >= before {
        return sort_variables(vars);
    }
    Ok(())
}

/// Adds the variables of the rows that are held, then sorts all, and leaves out those that repeat.
pub(crate) fn complete_variables(vars: &mut Vec<Var>, held: &[HeldRows]) -> Result<(), AllocError>
    ensures { OnOk result (AreSortedVariables (vars.old.items ++ held_variables held.now) vars.new.items) }
{
    for rows in held {
        match gather_variables(vars, &rows.rows) {
            Ok(()) => {}
            Err(fail) => return Err(fail),
        }
    }
    sort_variables(vars)
}
