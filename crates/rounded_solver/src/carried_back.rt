//! Multipliers carried back to the rows of definitions, with sums that are rounded down where they may be.

ghost use Rattle.std.specs.Prelude.{◌≡◌, true, IfOk};
ghost use Rattle.exact_num.specs.Value.{value_of};
ghost use Rattle.presolved_program.specs.Roundings.{IsAtMost};
ghost use Rattle.row_core.specs.Kinds.{kind_is_free};

use crate::sizes::short_sum;
use exact_num::{Frac, sub};
use presolved_program::{
    Entry, Layout, Stop, at, filled, item, number_at, plus_product, put, quotient, rounded_down,
    whole,
};
use row_core::Var;
use row_core::kind_numbers::TOTAL_DISCOUNTED_COST;
use std::alloc::Global;

/// What multipliers are to prove.
#[derive(Clone, Copy, PartialEq, Eq)]
pub(crate) enum Proving {
    /// A bound of the model's cost.
    Bound,
    /// That there is no plan.
    NoPlan,
}

/// The multiplier of each row, in order, from those of the rows that are no equations. From the last definition to the first, each gets
/// what its variable's column lacks of its cost; for capacities and activities of a year somewhat less, since their columns need only be
/// at most their cost. `more` are the decimals beyond the fewest that these keep.
pub(crate) fn multipliers_of_rows(
    alloc: Global,
    vars: &[Var],
    layout: &Layout,
    named: &[Frac],
    proving: Proving,
    more: i32,
) -> Result<Vec<Frac>, Stop> {
    let mut all = filled(alloc, whole(0)?, layout.rows.len())?;
    for (row, multiplier) in layout.left.iter().zip(named.iter()) {
        put(&mut all, *row, *multiplier)?;
    }
    for row in (0..layout.rows.len()).rev() {
        if let Some(variable) = at(&layout.defined, row)? {
            let kind = at(vars, variable)?.kind;
            let rest = lacking(
                &all,
                item(&layout.columns, variable)?,
                row,
                cost_of(kind, proving)?,
            )?;
            let short = short_rest(rest, kind, more)?;
            let own = whole(number_at(item(&layout.rows, row)?, variable))?;
            put(&mut all, row, quotient(short, own)?)?;
        }
    }
    Ok(all)
}

/// What a column lacks, rounded down where its variable is at least 0 and the sum would be long; where the variable is free, as it is.
fn short_rest(rest: Frac, kind: u8, more: i32) -> Result<Frac, Stop>
    ensures free { kind_is_free kind ≡ true → IfOk result (λ short. short ≡ rest) }
    ensures down { IfOk result (λ short. IsAtMost (value_of short) (value_of rest)) }
{
    match short_sum(kind) {
        Some(places) => rounded_down(rest, places.saturating_add(more)),
        None => Ok(rest),
    }
}

/// What a variable of a kind costs.
fn cost_of(kind: u8, proving: Proving) -> Result<Frac, Stop> {
    if proving == Proving::Bound && kind == TOTAL_DISCOUNTED_COST {
        whole(1)
    } else {
        whole(0)
    }
}

/// What a column lacks of its cost without one of its rows.
fn lacking(all: &[Frac], column: &[Entry], but: usize, cost: Frac) -> Result<Frac, Stop> {
    let mut sum = whole(0)?;
    for entry in column {
        if entry.at != but {
            sum = plus_product(sum, entry.value(), at(all, entry.at)?)?;
        }
    }
    Ok(sub(cost, sum)?)
}
