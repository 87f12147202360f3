//! Entries of one kind, sorted piece by piece by a number that rises with their variables in nearly all models.
//! Numbers compare in one step, and a piece takes little room. The sort by variable then finds long runs.

ghost use Rattle.std.specs.Prelude.{OnOk};
ghost use Rattle.mps_writer.specs.Entries.{IsRearranged};

use crate::entries::Entry;
use row_core::sort_key;
use std::alloc::{AllocError, Global};

/// So many entries are sorted together.
const PIECE: usize = 131_072;

/// Sorts each piece by those numbers. The entries of one variable stay in their order.
pub fn sort_pieces(alloc: Global, entries: &mut [Entry]) -> Result<(), AllocError>
    ensures { OnOk result (IsRearranged entries.old entries.new) }
{
    if entries.len() <= PIECE {
        return sort_piece(alloc, entries);
    }
    let (piece, others) = entries.split_at_mut(PIECE);
    match sort_piece(alloc, piece) {
        Ok(()) => sort_pieces(alloc, others),
        Err(fail) => Err(fail),
    }
}

// Sorts a piece, unless it is sorted.
fn sort_piece(alloc: Global, piece: &mut [Entry]) -> Result<(), AllocError>
    ensures { IsRearranged piece.old piece.new }
{
    if piece.is_sorted_by_key(|entry| sort_key(entry.variable)) {
        return Ok(());
    }
    piece.sort_by_cached_key(alloc, |entry| sort_key(entry.variable))
}
