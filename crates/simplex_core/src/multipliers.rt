//! The multipliers that a row of the last tableau gives.

ghost use Rattle.std.specs.Prelude.{◌≡◌, ◌≢◌, ◌+◌, ◌<◌, ◌≤◌, ◌^◌, pos, ◌<ℤ◌, IsTrue, map, length, IfOk};
ghost use Rattle.exact_num.specs.Range.{InRange};
ghost use Rattle.written_method.specs.FirstTableau.{width_of};
ghost use Rattle.written_method.specs.Programs.{inequality_of, program_of};
ghost use Rattle.written_method.specs.Ready.{IsReady};
ghost use Rattle.written_method.specs.Solved.{optimal_multipliers, refuting_multipliers};
ghost use Rattle.written_method.specs.Tableaus.{has_x0, line_of, rows_of};
ghost use Rattle.written_method.specs.Values.{multipliers_from};
ghost use Rattle.simplex_core.specs.LastTableaus.{IsLast};

use crate::ends::Lambda;
use exact_num::ratio;
use int_tableau::{Tableau, as_most};
use row_core::Row;
use std::alloc::{AllocError, Global};
use written_method::Reduced;

/// The multipliers of rows by the entries of a row of the tableau in their slack columns, each over `d`, with the sign of the row
/// as it was given.
fn by_slack(
    alloc: Global,
    tableau: &Tableau,
    line: usize,
    d: i128,
    slack: usize,
    rows: &[Row],
) -> Result<Lambda, AllocError>
    requires line { line < length tableau.now.tableau.lines }
    requires nonzero { d ≢ pos 0 }
    requires fits { InRange d }
    requires slacks { slack + length rows.now ≤ tableau.now.tableau.columns }
    requires countable { slack + length rows.now < 2 ^ 64 }
    ensures { IfOk result (λ l. l ≡ multipliers_from slack (line_of tableau.now.tableau line) d (map inequality_of rows.now)) }
{
    let mut lambda = Vec::with_capacity(alloc, rows.len())?;
    for (position, row) in rows.iter().enumerate() {
        let entry = tableau.entry(line, slack + position);
        lambda.push(ratio(as_most(row.sense, entry), d))?;
    }
    Ok(Lambda::of(lambda))
}

/// The slack column of the first row.
fn first_slack(reduced: &Reduced, tableau: &Tableau) -> usize
    requires { IsLast (program_of reduced.now) tableau.now.tableau }
    ensures { result ≡ width_of reduced.now.columns.items }
{
    let after = tableau.columns() - reduced.rows.len();
    if tableau.has_x0() { after - 1 } else { after }
}

/// The multipliers of an optimal end, by the row of z.
pub(crate) fn optimal_multipliers(
    alloc: Global,
    reduced: &Reduced,
    tableau: &Tableau,
) -> Result<Lambda, AllocError>
    requires ready { IsReady reduced.now }
    requires last { IsLast (program_of reduced.now) tableau.now.tableau }
    requires cost { pos 0 <ℤ (line_of tableau.now.tableau (rows_of tableau.now.tableau)).own }
    ensures { IfOk result (λ l. l ≡ optimal_multipliers (program_of reduced.now) tableau.now.tableau) }
{
    let line = tableau.rows();
    by_slack(
        alloc,
        tableau,
        line,
        tableau.own(line),
        first_slack(reduced, tableau),
        &reduced.rows,
    )
}

/// The multipliers of an infeasible end, by the row of w.
pub(crate) fn refuting_multipliers(
    alloc: Global,
    reduced: &Reduced,
    tableau: &Tableau,
) -> Result<Lambda, AllocError>
    requires ready { IsReady reduced.now }
    requires last { IsLast (program_of reduced.now) tableau.now.tableau }
    requires there { IsTrue (has_x0 tableau.now.tableau) }
    ensures { IfOk result (λ l. l ≡ refuting_multipliers (program_of reduced.now) tableau.now.tableau) }
{
    by_slack(
        alloc,
        tableau,
        tableau.rows() + 1,
        1,
        first_slack(reduced, tableau),
        &reduced.rows,
    )
}
