//! The rows of a trial, and its linear program.

ghost use Rattle.std.specs.Prelude.{◌≡◌, ◌++◌, [], ◌∷◌, if◌then◌else◌, IfOk, OnOk, map, length};
ghost use Rattle.row_core.specs.Contents.{contents_of};
ghost use Rattle.conflict_sets.specs.Pieces.{IsTriedOf, is_taken, listed_by, selected, tests_of};
ghost use Rattle.conflict_sets.specs.Trials.{rows_with};

use crate::listing::{Listing, is_listed_by, is_unequal};
use exact_num::Frac;
use row_core::{Row, copy_row};
use std::alloc::{AllocError, Global};
use written_method::Reduced;

/// Copies of the rows of a trial: every equation, and the inequalities that are listed.
pub(crate) fn trial_rows(
    alloc: Global,
    rows: &[Row],
    listing: &Listing<'_>,
) -> Result<Vec<Row>, AllocError>
    ensures { IfOk result (λ copies. map contents_of copies.items ≡ map contents_of (rows_with (listed_by listing.now) rows.now)) }
{
    let mut copies = Vec::new(alloc);
    for row in rows {
        push_taken(alloc, row, listing, &mut copies)?;
    }
    Ok(copies)
}

/// Appends a copy of a row, where it is an equation or listed.
fn push_taken(
    alloc: Global,
    row: &Row,
    listing: &Listing<'_>,
    copies: &mut Vec<Row>,
) -> Result<(), AllocError>
    ensures { OnOk result (map contents_of copies.new.items ≡ map contents_of copies.old.items ++ (if is_taken (listed_by listing.now) row.now then (contents_of row.now ∷ []) else [])) }
{
    if is_unequal(row) && !is_listed_by(listing, row.name) {
        return Ok(());
    }
    push_copy(alloc, row, copies)
}

/// Appends a copy of a row.
fn push_copy(alloc: Global, row: &Row, copies: &mut Vec<Row>) -> Result<(), AllocError>
    ensures { OnOk result (map contents_of copies.new.items ≡ map contents_of copies.old.items ++ contents_of row.now ∷ []) }
{
    let copy = copy_row(alloc, row)?;
    copies.push(copy)?;
    Ok(())
}

/// The linear program of a trial: of the reduced rows those that are listed, and no cost.
pub(crate) fn trial_program(
    alloc: Global,
    whole: &Reduced,
    listing: &Listing<'_>,
) -> Result<Reduced, AllocError>
    requires { length whole.now.scales.items ≡ length whole.now.rows.items }
    ensures { IfOk result (IsTriedOf (listed_by listing.now) whole.now) }
{
    let (rows, scales) = tried_rows(alloc, &whole.rows, &whole.scales, listing)?;
    let columns = Vec::from_slice(alloc, whole.columns.as_slice())?;
    Ok(Reduced {
        rows,
        scales,
        columns,
        cost: Vec::new(alloc),
        cost_rhs: 0,
        cost_own: 1,
    })
}

/// Copies of the rows that are listed, and their scales.
fn tried_rows(
    alloc: Global,
    rows: &[Row],
    scales: &[Frac],
    listing: &Listing<'_>,
) -> Result<(Vec<Row>, Vec<Frac>), AllocError>
    requires { length scales.now ≡ length rows.now }
    ensures rows { IfOk result (λ made. map contents_of made.0.items ≡ selected (tests_of (listed_by listing.now) rows.now) (map contents_of rows.now)) }
    ensures scales { IfOk result (λ made. made.1.items ≡ selected (tests_of (listed_by listing.now) rows.now) scales.now) }
{
    let mut copies = Vec::new(alloc);
    let mut kept = Vec::new(alloc);
    for (i, row) in rows.iter().enumerate() {
        push_tried(alloc, row, scales[i], listing, &mut copies, &mut kept)?;
    }
    Ok((copies, kept))
}

/// Appends a copy of a row, and its scale, where the row is listed.
fn push_tried(
    alloc: Global,
    row: &Row,
    scale: Frac,
    listing: &Listing<'_>,
    copies: &mut Vec<Row>,
    kept: &mut Vec<Frac>,
) -> Result<(), AllocError>
    ensures row { OnOk result (map contents_of copies.new.items ≡ map contents_of copies.old.items ++ (if listed_by listing.now row.now.name then (contents_of row.now ∷ []) else [])) }
    ensures scale { OnOk result (kept.new.items ≡ kept.old.items ++ (if listed_by listing.now row.now.name then (scale ∷ []) else [])) }
{
    if !is_listed_by(listing, row.name) {
        return Ok(());
    }
    push_copy(alloc, row, copies)?;
    kept.push(scale)?;
    Ok(())
}
