//! The section of columns, in one pass over the entries in the order of their variables.

ghost use Rattle.std.specs.Prelude.{◌≡◌, ◌≤◌, ◌++◌, true, drop, length, IfOk, OnOk};
ghost use Rattle.std.specs.List.{AllByRecursion, flat_map};
ghost use Rattle.row_core.specs.Numbers.{ascends};
ghost use Rattle.row_core.specs.Order.{var_cmp};
ghost use Rattle.mps_writer.specs.Entries.{Rises, following, column_text, lines_of};
ghost use Rattle.mps_writer.specs.MpsText.{IsNamedVariable, numbered};

use crate::entries::{Entry, compare};
use crate::lines::{push_column_head, push_entry};
use model_sets::Sets;
use row_core::Var;
use std::alloc::AllocError;
use std::cmp::Ordering;

/// Appends the columns of the variables, each with its entries.
pub fn push_columns(
    out: &mut Vec<u8>,
    vars: &[Var],
    entries: &[Entry],
    sets: &Sets,
) -> Result<(), AllocError>
    requires vars { AllByRecursion (IsNamedVariable sets.now) vars.now }
    requires ascending { ascends var_cmp vars.now ≡ true }
    requires rising { Rises entries.now }
    ensures { OnOk result (out.new.items
        ≡ out.old.items ++ flat_map (column_text sets.now entries.now) (numbered vars.now)) }
{
    let mut next = 0;
    for (place, var) in vars.iter().enumerate() {
        let column = place as u64 + 1;
        push_column_head(out, column, *var, sets)?;
        next = push_column(out, column, *var, entries, next)?;
    }
    Ok(())
}

// Appends the entries of the variable, passing by those of earlier variables; answers where later ones
// begin.
fn push_column(
    out: &mut Vec<u8>,
    column: u64,
    var: Var,
    entries: &[Entry],
    from: usize,
) -> Result<usize, AllocError>
    requires within { from ≤ length entries.now }
    ensures text { OnOk result (out.new.items ≡ out.old.items ++ lines_of column var (drop from entries.now)) }
    ensures rest { IfOk result (λ to. drop to entries.now ≡ following var (drop from entries.now)) }
    ensures within { IfOk result (λ to. to ≤ length entries.now) }
{
    for i in from..entries.len() {
        let entry = &entries[i];
        match compare(entry, var) {
            Ordering::Less => {}
            Ordering::Equal => push_entry(out, column, entry)?,
            Ordering::Greater => return Ok(i),
        }
    }
    Ok(entries.len())
}
