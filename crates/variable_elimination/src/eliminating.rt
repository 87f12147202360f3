//! The linear program that is left when all defined variables are removed.

ghost use Rattle.std.specs.Prelude.{◌≡◌, [], pos, ◌<ℤ◌, ◌+◌, ◌<◌, ◌^◌, IsTrue, None, length, IfOk, IfErr, OnOk};
ghost use Rattle.exact_num.specs.Steps.{first_wide};
ghost use Rattle.row_core.specs.declared.place.Stopped.TheVariants.{Memory};
ghost use Rattle.row_core.specs.Forms.{form_of};
ghost use Rattle.row_core.specs.Order.{var_cmp};
ghost use Rattle.written_method.specs.Definitions.{definitions_of, others_of, rows_of, defined, AreTriangular};
ghost use Rattle.written_method.specs.Eliminated.{expanded_all, reduced_rows, cost_variable, cost_row, other_entries, elimination_steps};
ghost use Rattle.written_method.specs.Ready.{IsReady};
ghost use Rattle.variable_elimination.specs.Columns.{AreColumns};
ghost use Rattle.variable_elimination.specs.CostRows.{IsCostReduced, IsCostOf};
ghost use Rattle.variable_elimination.specs.Eliminations.{IsWhole};
ghost use Rattle.variable_elimination.specs.Left.{AreKnown, IsWithout};
ghost use Rattle.variable_elimination.specs.ReducedRows.{AreThese, AreReductions};
ghost use Rattle.variable_elimination.specs.SoFar.{IsFirst, HaveNone};

use crate::columns::columns_of;
use crate::costing::{COST_VARIABLE, cost_row};
use crate::definitions::expand_definitions;
use crate::reducing::reduce_rows;
use exact_num::Frac;
use row_core::{Row, Stopped, Var, number_of};
use std::alloc::{AllocError, Global};
use written_method::Reduced;

/// Removes all defined variables. `defs` says of each row which variable it defines, if it defines one.
///
/// The definitions are expanded in the order of rows: in each, the variables that are defined before it are removed in
/// ascending order. Then all defined variables are removed from each other row, which keeps the fraction by which it was
/// multiplied, and last from the row that says what the cost is. A row without entries that is true of 0 is dropped.
/// Each variable of the rows has to be defined, or to be one that a plan chooses; so what is left is ready to be solved.
/// `Width` comes exactly where a number that is formed doesn't fit, with the first place at which one doesn't; any other
/// refusal means that memory ran out.
pub fn eliminate(alloc: Global, rows: &[Row], defs: &[Option<Var>]) -> Result<Reduced, Stopped>
    requires same { length defs.now ≡ length rows.now }
    requires triangular { AreTriangular (definitions_of rows.now defs.now) }
    requires plain { HaveNone cost_variable (rows_of (definitions_of rows.now defs.now)) }
    requires known { AreKnown (defined (definitions_of rows.now defs.now)) rows.now }
    ensures rows { IfOk result (λ made. AreThese (reduced_rows (expanded_all [] (definitions_of rows.now defs.now)) (others_of rows.now defs.now)) made.rows.items made.scales.items) }
    ensures columns { IfOk result (λ made. AreColumns rows.now made.columns.items) }
    ensures cost { IfOk result (IsCostOf (cost_row (expanded_all [] (definitions_of rows.now defs.now)) defs.now)) }
    ensures own { IfOk result (λ made. pos 0 <ℤ made.cost_own) }
    ensures cost_reduced { OnOk result (IsCostReduced (rows_of (definitions_of rows.now defs.now)) defs.now (cost_row (expanded_all [] (definitions_of rows.now defs.now)) defs.now)) }
    ensures reductions { IfOk result (λ made. AreReductions (rows_of (definitions_of rows.now defs.now)) (others_of rows.now defs.now) made.rows.items made.scales.items) }
    ensures without { IfOk result (IsWithout (defined (definitions_of rows.now defs.now))) }
    ensures whole { IfOk result (IsWhole rows.now defs.now) }
    ensures ready { IfOk result IsReady }
    ensures fits { OnOk result (first_wide (elimination_steps rows.now defs.now) ≡ None) }
    ensures stopped { IfErr result (IsFirst (first_wide (elimination_steps rows.now defs.now))) }
{
    let definitions = expand_definitions(alloc, rows, defs)?;
    let (kept, scales) = reduce_rows(alloc, rows, defs, &definitions)?;
    let cost = cost_row(alloc, defs, &definitions)?;
    let columns = columns_of(alloc, rows)?;
    can_be_counted(&columns, &kept);
    let made = with_cost(alloc, kept, scales, columns, &cost)?;
    Ok(made)
}

/// What is in memory is little enough to count the variables twice and the rows once.
fn can_be_counted(columns: &[Var], rows: &[Row])
    ensures { length columns.now + length columns.now + length rows.now + 1 < 2 ^ 64 }
{}

/// The linear program of these rows, scales and columns and of the row of the cost, in which the cost is a variable.
fn with_cost(
    alloc: Global,
    rows: Vec<Row>,
    scales: Vec<Frac>,
    columns: Vec<Var>,
    cost: &Row,
) -> Result<Reduced, Stopped>
    ensures rows { IfOk result (λ made. made.rows.items ≡ rows.items) }
    ensures scales { IfOk result (λ made. made.scales.items ≡ scales.items) }
    ensures columns { IfOk result (λ made. made.columns.items ≡ columns.items) }
    ensures cost { IfOk result (IsCostOf (form_of cost.now)) }
    ensures memory { IfErr result (λ e. e ≡ Memory) }
{
    let entries = other_entries(alloc, &cost.entries, COST_VARIABLE)?;
    Ok(Reduced {
        rows,
        scales,
        columns,
        cost: entries,
        cost_rhs: cost.rhs,
        cost_own: number_of(&cost.entries, COST_VARIABLE),
    })
}

/// The entries but that of a variable.
fn other_entries(
    alloc: Global,
    entries: &[(Var, i128)],
    variable: Var,
) -> Result<Vec<(Var, i128)>, AllocError>
    ensures { IfOk result (λ others. others.items ≡ other_entries var_cmp variable entries.now) }
{
    let mut others = Vec::with_capacity(alloc, entries.len())?;
    for entry in entries {
        if entry.0 != variable {
            others.push(*entry)?;
        }
    }
    Ok(others)
}
