//! Another cost in place of the model's.

ghost use Rattle.std.specs.Prelude.{◌≡◌, neg_ℤ, IfOk, List, Option};
ghost use Rattle.row_problem.specs.Prelude.{Row, sign_of};
ghost use Rattle.row_problem.specs.Programs.{aim_entries};
ghost use Rattle.row_problem.specs.ProgramsOf.{IsProgramOf, MayAim};

use certified_answers::{Cost, Goal};
use row_core::Var;
use std::alloc::{AllocError, Global};
use written_method::Reduced;

/// What is left of rows, with another cost than the model's: one of the columns.
pub fn aimed(alloc: Global, reduced: Reduced, cost: Cost) -> Result<Reduced, AllocError>
    ensures program { (rows : List Row) (defs : List (Option Var)) (vars : List Var) (before : Cost) → IsProgramOf rows defs vars before reduced
        → MayAim reduced.columns.items cost → IfOk result (IsProgramOf rows defs vars cost) }
{
    let entries = aim_entries(alloc, cost)?;
    Ok(Reduced {
        rows: reduced.rows,
        scales: reduced.scales,
        columns: reduced.columns,
        cost: entries,
        cost_rhs: 0,
        cost_own: 1,
    })
}

/// The entries of z less such a cost.
fn aim_entries(alloc: Global, cost: Cost) -> Result<Vec<(Var, i128)>, AllocError>
    ensures { IfOk result (λ entries. entries.items ≡ aim_entries cost) }
{
    let mut entries = Vec::new(alloc);
    if let Cost::One(var, goal) = cost {
        entries.push((var, turned_sign(goal)))?;
    }
    Ok(entries)
}

/// The number of a variable in z less the cost that is its value.
fn turned_sign(goal: Goal) -> i128
    ensures { result ≡ neg_ℤ (sign_of goal) }
{
    match goal {
        Goal::Least => -1,
        Goal::Greatest => 1,
    }
}
