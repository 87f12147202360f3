//! The columns of a kind's table.

ghost use Rattle.std.specs.Prelude.{◌≡◌, ◌<◌, ◌++◌, ◌∷◌, [], IfOk, OnOk, filter};
ghost use Rattle.csv.specs.Writing.{default_writer, row_text};
ghost use Rattle.row_core.specs.Kinds.{IsKind, kind_has};
ghost use Rattle.plan_tables.specs.Columns.{column_order, column_word, columns, header_of};

use csv::ByteRecord;
use plan_files::{Lines, push_field};
use row_core::kind_numbers::{
    RATE_OF_PRODUCTION_BY_TECHNOLOGY_BY_MODE, RATE_OF_TOTAL_ACTIVITY,
    RATE_OF_USE_BY_TECHNOLOGY_BY_MODE,
};
use row_core::var_has;
use std::alloc::{AllocError, Global};

/// The places of the subscripts that a kind has among the fields of `Index`, in the order of its columns.
pub(crate) fn columns_of(alloc: Global, kind: u8) -> Result<Vec<u8>, AllocError>
    requires { IsKind kind }
    ensures { IfOk result (λ places. places.items ≡ columns kind) }
{
    let mut columns = Vec::new(alloc);
    for place in column_order(kind) {
        push_column(&mut columns, kind, place)?;
    }
    Ok(columns)
}

// Appends a place, where the kind has the subscript there.
fn push_column(columns: &mut Vec<u8>, kind: u8, place: u8) -> Result<(), AllocError>
    requires listed { IsKind kind }
    requires within { place < 8 }
    ensures { OnOk result (columns.new.items ≡ columns.old.items ++ filter (kind_has kind) (place ∷ [])) }
{
    if var_has(kind, place) {
        columns.push(place)?;
    }
    Ok(())
}

// All places, in the order of the kind's columns, that of the long code: the order of `Index`, but of three kinds.
fn column_order(kind: u8) -> [u8; 8]
    ensures { result ≡ column_order kind }
{
    match kind {
        RATE_OF_PRODUCTION_BY_TECHNOLOGY_BY_MODE | RATE_OF_USE_BY_TECHNOLOGY_BY_MODE => {
            [0, 1, 2, 3, 6, 4, 5, 7]
        }
        RATE_OF_TOTAL_ACTIVITY => [0, 1, 3, 2, 4, 5, 6, 7],
        _ => [0, 1, 2, 3, 4, 5, 6, 7],
    }
}

/// Appends the first record of a table with these columns.
pub(crate) fn push_header(
    alloc: Global,
    lines: &mut Lines,
    columns: &[u8],
) -> Result<(), AllocError>
    ensures { OnOk result (lines.new ≡ lines.old ++ row_text default_writer (header_of columns.now)) }
{
    let mut fields = ByteRecord::new(alloc);
    for place in columns {
        push_field(&mut fields, column_word(*place))?;
    }
    push_field(&mut fields, b"VALUE")?;
    lines.push(&fields)
}

// The head of the column of the subscript at a place.
fn column_word(place: u8) -> &'static [u8]
    ensures { result.now ≡ column_word place }
{
    match place {
        0 => b"REGION",
        1 => b"_REGION",
        2 => b"TIMESLICE",
        3 => b"TECHNOLOGY",
        4 => b"FUEL",
        5 => b"EMISSION",
        6 => b"MODE_OF_OPERATION",
        _ => b"YEAR",
    }
}
