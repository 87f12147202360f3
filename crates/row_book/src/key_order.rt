//! Variables, sorted piece by piece by a number that rises with them in nearly all models. Numbers compare in one
//! step, and a piece takes little room. The sort by variable then finds long runs.

ghost use Rattle.std.specs.Prelude.{IsPermutation};

use row_core::{Var, sort_key};
use std::alloc::{AllocError, Global};

/// So many variables are sorted together.
const PIECE: usize = 131_072;

/// Sorts each piece by those numbers.
pub(crate) fn sort_pieces(alloc: Global, vars: &mut [Var]) -> Result<(), AllocError>
    ensures { IsPermutation vars.old vars.new }
{
    if vars.len() <= PIECE {
        return sort_piece(alloc, vars);
    }
    let (piece, others) = vars.split_at_mut(PIECE);
    match sort_piece(alloc, piece) {
        Ok(()) => sort_pieces(alloc, others),
        Err(fail) => Err(fail),
    }
}

/// Sorts a piece, unless it is sorted.
fn sort_piece(alloc: Global, piece: &mut [Var]) -> Result<(), AllocError>
    ensures { IsPermutation piece.old piece.new }
{
    if piece.is_sorted_by_key(|var| sort_key(*var)) {
        return Ok(());
    }
    piece.sort_by_cached_key(alloc, |var| sort_key(*var))
}
