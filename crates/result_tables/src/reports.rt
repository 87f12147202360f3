//! The reports.

ghost use Rattle.std.specs.Prelude.{◌≡◌, ◌++◌, IfErr, IfOk, None, OnOk, map};
ghost use Rattle.std.specs.List.{AllByRecursion};
ghost use Rattle.exact_num.specs.Steps.{first_wide};
ghost use Rattle.exact_num.specs.Value.{value_of};
ghost use Rattle.row_core.specs.Kinds.{IsKind};
ghost use Rattle.row_core.specs.NameTexts.{VariableIsWithin};
ghost use Rattle.plan_files.specs.Listed.{IsListedRow, IsListedVariable, name_of_row};
ghost use Rattle.result_tables.specs.Causes.{IsFirstStop};
ghost use Rattle.result_tables.specs.Prices.{price_steps};
ghost use Rattle.result_tables.specs.Reports.{end_line, infeasible_text, report_text, summary_text, unbounded_text};

use crate::attempts::FoundBy;
use crate::directions::push_direction_table;
use crate::lines::{push_amount, push_counts};
use crate::prices::push_price_table;
use crate::quantities::push_kind_tables;
use exact_num::Frac;
use model_sets::Sets;
use row_core::{Multipliers, Plan, Row, Stopped, Var};
use std::alloc::{AllocError, Global};

/// The report of a solved model: the lines `status solved`, `cost` and `bound` (each as a fraction and rounded to six decimal
/// places), `pivots` and `rounded`, `places` where the written factors haven't 6 decimal places, `attempt` with the number of the
/// attempt that gave the plan, where it isn't the first, and `start` where guesses began from a file, then 13 tables, then `end`. A table is a line `table` with its name, and CSV
/// records: of the first twelve tables one for each of `vars` of a kind, in order, whose value in the plan isn't 0, with the members
/// of its subscripts and its value as a fraction and as a decimal; of the last one in the same way for each balance of a fuel,
/// EBa11, whose price isn't 0. The price is the multiplier of the row times the number that the row has at Production.
///
/// `Err(Stopped::Width(Place::Price(name)))` comes exactly where this product forms a number that doesn't fit, at the first such row;
/// `Err(Stopped::Memory)` where memory runs out.
pub fn report(
    alloc: Global,
    rows: &[Row],
    vars: &[Var],
    plan: &Plan,
    multipliers: &Multipliers,
    cost: Frac,
    bound: Frac,
    pivots: u64,
    rounded: u64,
    places: u8,
    attempt: FoundBy,
    sets: &Sets,
) -> Result<Vec<u8>, Stopped>
    requires rows { AllByRecursion (IsListedRow sets.now) (map name_of_row rows.now) }
    requires vars { AllByRecursion (IsListedVariable sets.now) vars.now }
    ensures text { IfOk result (λ text. text.items ≡ report_text sets.now vars.now plan.now rows.now multipliers.now (value_of cost) (value_of bound) pivots rounded places attempt) }
    ensures fits { OnOk result (first_wide (price_steps rows.now multipliers.now) ≡ None) }
    ensures stopped { IfErr result (IsFirstStop (price_steps rows.now multipliers.now)) }
{
    let mut out = Vec::new(alloc);
    push_summary(&mut out, cost, bound, pivots, rounded, places, attempt)?;
    push_kind_tables(alloc, &mut out, sets, vars, plan)?;
    push_price_table(alloc, &mut out, sets, rows, multipliers)?;
    push_end(&mut out)?;
    Ok(out)
}

/// The report of a model that has no plan: the lines `status infeasible`, `pivots`, `rounded`, `places` where the written factors
/// haven't 6 decimal places, `attempt` with the number of the attempt that showed it, where it isn't the first, `start` where guesses
/// began from a file, and `end`. Refuses where memory runs out.
pub fn infeasible_report(
    alloc: Global,
    pivots: u64,
    rounded: u64,
    places: u8,
    attempt: FoundBy,
) -> Result<Vec<u8>, AllocError>
    ensures { IfOk result (λ text. text.items ≡ infeasible_text pivots rounded places attempt) }
{
    let mut out = Vec::from_slice(alloc, b"status infeasible\n")?;
    push_counts(&mut out, pivots, rounded, places, attempt)?;
    push_end(&mut out)?;
    Ok(out)
}

/// The report of a model whose cost has no bound: the lines `status unbounded`, `pivots`, `rounded`, and `places` where the
/// written factors haven't 6 decimal places, the table Direction, and `end`. The table has a record for each RateOfActivity, NewCapacity and Trade, in order, whose value in the direction isn't 0: its
/// word, the members of its subscripts, and its value as a fraction and rounded to six decimal places. Refuses where memory runs out.
pub fn unbounded_report(
    alloc: Global,
    direction: &Plan,
    pivots: u64,
    rounded: u64,
    places: u8,
    sets: &Sets,
) -> Result<Vec<u8>, AllocError>
    requires { AllByRecursion (λ e. IsKind e.0.kind × VariableIsWithin sets.now e.0) direction.now }
    ensures { IfOk result (λ text. text.items ≡ unbounded_text sets.now direction.now pivots rounded places) }
{
    let mut out = Vec::from_slice(alloc, b"status unbounded\n")?;
    push_counts(&mut out, pivots, rounded, places, FoundBy::ByMethod)?;
    push_direction_table(alloc, &mut out, sets, direction)?;
    push_end(&mut out)?;
    Ok(out)
}

// Appends the first lines of the report of a solved model.
fn push_summary(
    out: &mut Vec<u8>,
    cost: Frac,
    bound: Frac,
    pivots: u64,
    rounded: u64,
    places: u8,
    attempt: FoundBy,
) -> Result<(), AllocError>
    ensures { OnOk result (out.new.items ≡ out.old.items ++ summary_text (value_of cost) (value_of bound) pivots rounded places attempt) }
{
    out.extend_from_slice(b"status solved\n")?;
    push_amount(out, b"cost", cost)?;
    push_amount(out, b"bound", bound)?;
    push_counts(out, pivots, rounded, places, attempt)?;
    Ok(())
}

// Appends the last line.
fn push_end(out: &mut Vec<u8>) -> Result<(), AllocError>
    ensures { OnOk result (out.new.items ≡ out.old.items ++ end_line) }
{
    out.extend_from_slice(b"end\n")
}
