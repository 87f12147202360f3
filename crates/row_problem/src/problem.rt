//! Rows, and the linear program that is left of them.

ghost use Rattle.std.specs.Prelude.{◌≡◌, None, IfErr, IfOk, OnOk};
ghost use Rattle.row_problem.specs.Prelude.{first_wide, AreVariablesOf, elimination_steps, IsFirst, Model};
ghost use Rattle.row_problem.specs.Problems.{IsProblem};
ghost use Rattle.row_problem.specs.ProgramsOf.{IsProgramOf};

use certified_answers::Cost;
use row_core::{Row, Stopped, Var};
use std::alloc::Global;
use variable_elimination::eliminate;
use written_method::Reduced;

/// Rows of which a question is asked, with all that belongs to them.
#[derive(Clone, Copy)]
pub struct Problem<'a> {
    /// The rows, in strictly ascending order of their names.
    pub rows: &'a [Row],
    /// For each row the variable that it defines, if it defines one.
    pub defs: &'a [Option<Var>],
    /// The variables of the rows, in strictly ascending order.
    pub vars: &'a [Var],
    /// What is left of the rows when the defined variables are removed, with the cost.
    pub reduced: &'a Reduced,
    /// What is to be as little as it can be.
    pub cost: Cost,
}

/// What is left of rows at the model's cost: all defined variables are removed, each by the row that defines it. `defs` says of each
/// row which variable it defines, if it defines one, and `vars` are the variables of the rows.
///
/// `Width` comes exactly where a number that is formed doesn't fit, with the first place at which one doesn't; any other refusal means
/// that memory ran out.
pub fn left_of(
    alloc: Global,
    rows: &[Row],
    defs: &[Option<Var>],
    vars: &[Var],
) -> Result<Reduced, Stopped>
    requires problem { IsProblem rows.now defs.now vars.now }
    requires variables { AreVariablesOf rows.now vars.now }
    ensures program { IfOk result (IsProgramOf rows.now defs.now vars.now Model) }
    ensures fits { OnOk result (first_wide (elimination_steps rows.now defs.now) ≡ None) }
    ensures stopped { IfErr result (IsFirst (first_wide (elimination_steps rows.now defs.now))) }
{
    eliminate(alloc, rows, defs)
}
