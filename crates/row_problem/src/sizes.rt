//! How large the solver's linear program is.

ghost use Rattle.std.specs.Prelude.{◌≡◌, ◌≤◌};
ghost use Rattle.row_problem.specs.Sizes.{column_count, columns_at, inequality_count};

use row_core::kind_numbers::{NEW_CAPACITY, RATE_OF_ACTIVITY, TRADE};
use row_core::{Row, Sense, Var};

/// The counts of the solver.
#[derive(Clone, Copy, PartialEq, Eq)]
pub struct Size {
    /// Its rows: the inequalities.
    pub rows: u64,
    /// Its columns: one for each RateOfActivity and NewCapacity, and two for each Trade whose `region` is before its `other`.
    pub columns: u64,
}

/// The counts of the solver on rows with these variables.
pub fn size_of(rows: &[Row], vars: &[Var]) -> Size
    ensures rows { result.rows ≡ inequality_count rows.now }
    ensures columns { result.columns ≡ column_count vars.now }
{
    Size {
        rows: inequality_count(rows),
        columns: column_count(vars),
    }
}

/// How many of the rows are inequalities.
fn inequality_count(rows: &[Row]) -> u64
    ensures { result ≡ inequality_count rows.now }
{
    let mut count: u64 = 0;
    for row in rows {
        if row.sense != Sense::Equal {
            count += 1;
        }
    }
    count
}

/// How many columns the variables have together.
fn column_count(vars: &[Var]) -> u64
    ensures { result ≡ column_count vars.now }
{
    let mut count: u64 = 0;
    for var in vars {
        count += columns_at(*var);
    }
    count
}

/// How many columns a variable has.
fn columns_at(var: Var) -> u64
    ensures value { result ≡ columns_at var }
    ensures few { result ≤ 2 }
{
    if var.kind == RATE_OF_ACTIVITY || var.kind == NEW_CAPACITY {
        return 1;
    }
    if var.kind == TRADE && var.index.region < var.index.other {
        return 2;
    }
    0
}
