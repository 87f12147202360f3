//! Which inequalities a trial has.

ghost use Rattle.std.specs.Prelude.{◌≡◌, ◌++◌, [], ◌∷◌, ◌&&◌, if◌then◌else◌, IfOk, OnOk};
ghost use Rattle.row_problem.specs.Sizes.{is_unequal};
ghost use Rattle.conflict_sets.specs.Pieces.{is_outside, listed_by};
ghost use Rattle.conflict_sets.specs.Walks.{is_listed, listed_names};

use row_core::{Multipliers, Row, RowName, Sense};
use std::alloc::{AllocError, Global};

/// The inequalities that a trial has.
#[derive(Clone, Copy)]
pub(crate) enum Listing<'a> {
    /// Every one.
    Every,
    /// Those with a multiplier other than 0, but the one of this name.
    Others(&'a Multipliers, RowName),
    /// Those with a multiplier other than 0, but those from this name to that one.
    Outside(&'a Multipliers, RowName, RowName),
}

/// Whether the inequality of this name is among them.
pub(crate) fn is_listed_by(listing: &Listing<'_>, name: RowName) -> bool
    ensures { result ≡ listed_by listing.now name }
{
    match listing {
        Listing::Every => true,
        Listing::Others(multipliers, left_out) => {
            is_listed(*multipliers, name) && name != *left_out
        }
        Listing::Outside(multipliers, first, last) => {
            is_listed(*multipliers, name) && is_outside(name, *first, *last)
        }
    }
}

/// Whether a name comes before the first of these or after the last.
fn is_outside(name: RowName, first: RowName, last: RowName) -> bool
    ensures { result ≡ is_outside first last name }
{
    name.cmp(&first).is_lt() || last.cmp(&name).is_lt()
}

/// Whether the row of this name has a multiplier other than 0.
pub(crate) fn is_listed(multipliers: &Multipliers, name: RowName) -> bool
    ensures { result ≡ is_listed multipliers.now name }
{
    multipliers.value(name).num != 0
}

/// Whether a row is an inequality.
pub(crate) fn is_unequal(row: &Row) -> bool
    ensures { result ≡ is_unequal row.now.sense }
{
    row.sense != Sense::Equal
}

/// The names of the inequalities with a multiplier other than 0, in the order of rows.
pub(crate) fn listed_names(
    alloc: Global,
    rows: &[Row],
    multipliers: &Multipliers,
) -> Result<Vec<RowName>, AllocError>
    ensures { IfOk result (λ names. names.items ≡ listed_names multipliers.now rows.now) }
{
    let mut names = Vec::new(alloc);
    for row in rows {
        push_listed(row, multipliers, &mut names)?;
    }
    Ok(names)
}

/// Appends the name of a row, where it is an inequality with a multiplier other than 0.
fn push_listed(
    row: &Row,
    multipliers: &Multipliers,
    names: &mut Vec<RowName>,
) -> Result<(), AllocError>
    ensures { OnOk result (names.new.items ≡ names.old.items ++ (if is_unequal row.now.sense && is_listed multipliers.now row.now.name then (row.now.name ∷ []) else [])) }
{
    if is_unequal(row) && is_listed(multipliers, row.name) {
        names.push(row.name)?;
    }
    Ok(())
}
