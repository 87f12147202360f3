//! Why there is no book of rows.

ghost use Rattle.std.specs.Prelude.{◌≡◌};
ghost use Rattle.row_book.specs.declared.fail.BookFail.TheVariants.{Memory};

use row_core::Place;
use std::alloc::{AllocError, AllocFailed};

/// Why the rows of a model aren't made.
#[derive(Clone, Copy, PartialEq, Eq)]
pub enum BookFail {
    /// A number that is formed for the row of this place lies outside the range from `-(2^127 - 1)` to
    /// `2^127 - 1`.
    Width(Place),
    /// The rows have more than 4,000,000 entries together.
    TooManyEntries,
    /// Memory ran out.
    Memory,
}

impl From<AllocError> for BookFail {
    ghost from_gives = { λ _ fail. fail ≡ Memory };

    fn from(_: AllocError) -> BookFail {
        BookFail::Memory
    }
}

impl<T: Drop> From<AllocFailed<T>> for BookFail {
    ghost from_gives = { λ _ fail. fail ≡ Memory };

    fn from(_: AllocFailed<T>) -> BookFail {
        BookFail::Memory
    }
}
