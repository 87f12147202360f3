//! Values as a plan, and multipliers of rows.

ghost use Rattle.std.specs.Prelude.{◌≡◌, true, IfOk};
ghost use Rattle.row_core.specs.Numbers.{ascends, keys_of};
ghost use Rattle.row_core.specs.Order.{row_name_cmp, var_cmp};
ghost use Rattle.row_core.specs.RowLists.{names_of};
ghost use Rattle.certified_answers.specs.Answers.{AreNamedIn};

use exact_num::Frac;
use row_core::{Multipliers, Plan, Row, Var, fraction};
use std::alloc::{AllocError, Global};

/// The plan that gives each column its value, in order; 0 where there is none.
pub(crate) fn plan_of(alloc: Global, columns: &[Var], values: &[Frac]) -> Result<Plan, AllocError>
    requires { ascends var_cmp columns.now ≡ true }
    ensures { IfOk result (λ plan. keys_of plan ≡ columns.now) }
{
    let mut entries = Vec::with_capacity(alloc, columns.len())?;
    for column in columns {
        let value = values.get(entries.len()).copied().unwrap_or(fraction(0));
        entries.push((*column, value))?;
    }
    Ok(Plan::of(entries))
}

/// The multipliers that give each row its own, in order; 0 where there is none.
pub(crate) fn multipliers_in(
    alloc: Global,
    rows: &[Row],
    multipliers: &[Frac],
) -> Result<Multipliers, AllocError>
    requires { ascends row_name_cmp (names_of rows.now) ≡ true }
    ensures { IfOk result (AreNamedIn rows.now) }
{
    let mut entries = Vec::with_capacity(alloc, rows.len())?;
    for row in rows {
        let multiplier = multipliers
            .get(entries.len())
            .copied()
            .unwrap_or(fraction(0));
        entries.push((row.name, multiplier))?;
    }
    Ok(Multipliers::of(entries))
}
