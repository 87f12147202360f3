//! The header of a parameter's table.

ghost use Rattle.std.specs.Prelude.{◌≡◌, ◌++◌, [], true, false, IfOk, OnOk};
ghost use Rattle.csv.specs.Records.{fields_of, partial_of};
ghost use Rattle.csv.specs.Writing.{default_writer, row_text};
ghost use Rattle.model_sets.specs.Names.{IsSet};
ghost use Rattle.model_sets.specs.Params.{IsParam, subscript_sets};
ghost use Rattle.data_tables.specs.ParamTables.{column_word, column_words, param_header};

use csv::ByteRecord;
use model_sets::set_numbers::REGION;
use model_sets::{set_word, subscript_sets};
use plan_files::{Lines, push_field};
use std::alloc::{AllocError, Global};

/// Appends the first record of the table of a parameter.
pub(crate) fn push_header(alloc: Global, lines: &mut Lines, param: u8) -> Result<(), AllocError>
    requires { IsParam param }
    ensures { OnOk result (lines.new ≡ lines.old ++ row_text default_writer (param_header param)) }
{
    let mut fields = column_words(alloc, param)?;
    push_field(&mut fields, b"VALUE")?;
    lines.push(&fields)
}

// The heads of the columns of its subscripts.
fn column_words(alloc: Global, param: u8) -> Result<ByteRecord, AllocError>
    requires { IsParam param }
    ensures fields { IfOk result (λ fields. fields_of fields ≡ column_words false (subscript_sets param)) }
    ensures whole { IfOk result (λ fields. partial_of fields ≡ []) }
{
    let mut fields = ByteRecord::new(alloc);
    let mut is_later = false;
    for set in subscript_sets(param) {
        push_field(&mut fields, column_word(is_later, *set))?;
        is_later = true;
    }
    Ok(fields)
}

// The head of the column of a subscript that runs over this set, and is the first of its parameter or a later one.
fn column_word(is_later: bool, set: u8) -> &'static [u8]
    requires { IsSet set }
    ensures { result.now ≡ column_word is_later set }
{
    if is_later && set == REGION {
        b"_REGION"
    } else {
        set_word(set).as_bytes()
    }
}
