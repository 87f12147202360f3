//! The variables of the entries of rows, kind by kind. In the rows of an equation the variables of a kind mostly ascend
//! from row to row, so that a sort finds long runs of them; row by row, those of several kinds take turns.

ghost use Rattle.std.specs.Prelude.{◌≡◌, ◌<◌, ◌++◌, ◌∷◌, [], filter, None, IfOk, OnOk};
ghost use Rattle.row_core.specs.Numbers.{variables_of};
ghost use Rattle.row_core.specs.RowLists.{entry_variables};
ghost use Rattle.row_book.specs.KindVariables.{is_of_kind, lesser_kind, next_kind};
ghost use Rattle.row_book.specs.Tallies.{AreSameVariables};

use row_core::{Row, Var};
use std::alloc::AllocError;

/// Adds the variables of all entries, kind by kind.
pub(crate) fn add_by_kind(vars: &mut Vec<Var>, rows: &[Row]) -> Result<(), AllocError>
    ensures { OnOk result (AreSameVariables vars.new.items (vars.old.items ++ entry_variables rows.now)) }
{
    // No variable is of kind 0: the first turn adds none, and finds the least kind.
    let mut kind = 0;
    'kinds: loop {
        kind = match add_kind(vars, rows, kind) {
            Ok(Some(next)) => bounded(next),
            Ok(None) => return Ok(()),
            Err(fail) => return Err(fail),
        };
    }
}

/// The kind, with the bound that its type sets: so the loop over the kinds ends.
fn bounded(kind: u8) -> u8
    ensures same { result ≡ kind }
    ensures bound { result < 256 }
{
    kind
}

/// Adds the variables of this kind, row by row, and answers the least kind after it, if there is one.
fn add_kind(vars: &mut Vec<Var>, rows: &[Row], kind: u8) -> Result<Option<u8>, AllocError>
    ensures added { OnOk result (vars.new.items ≡ vars.old.items ++ filter (is_of_kind kind) (entry_variables rows.now)) }
    ensures next { IfOk result (λ next. next ≡ next_kind kind None (entry_variables rows.now)) }
{
    let mut next = None;
    for row in rows {
        next = add_kind_of_row(vars, row, kind, next)?;
    }
    Ok(next)
}

/// Adds those of a row, and answers the least kind after it among the row's and the one that was found before.
fn add_kind_of_row(
    vars: &mut Vec<Var>,
    row: &Row,
    kind: u8,
    before: Option<u8>,
) -> Result<Option<u8>, AllocError>
    ensures added { OnOk result (vars.new.items ≡ vars.old.items ++ filter (is_of_kind kind) (variables_of row.now.entries.items)) }
    ensures next { IfOk result (λ next. next ≡ next_kind kind before (variables_of row.now.entries.items)) }
{
    let mut next = before;
    for (var, _) in row.entries.as_slice() {
        add_of_kind(vars, *var, kind)?;
        next = lesser(next, var.kind, kind);
    }
    Ok(next)
}

/// Adds the variable if it is of this kind.
fn add_of_kind(vars: &mut Vec<Var>, var: Var, kind: u8) -> Result<(), AllocError>
    ensures { OnOk result (vars.new.items ≡ vars.old.items ++ filter (is_of_kind kind) (var ∷ [])) }
{
    if var.kind == kind {
        vars.push(var)?;
    }
    Ok(())
}

/// The lesser of both kinds, of which the second counts only if it is after `past`.
fn lesser(least: Option<u8>, kind: u8, past: u8) -> Option<u8>
    ensures { result ≡ lesser_kind past least kind }
{
    if kind <= past {
        return least;
    }
    match least {
        Some(other) if other <= kind => Some(other),
        _ => Some(kind),
    }
}
