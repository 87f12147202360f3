//! The table of the members of the sets.

ghost use Rattle.std.specs.Prelude.{◌≡◌, ◌++◌, ◌∷◌, [], IfOk, OnOk};
ghost use Rattle.csv.specs.Writing.{default_writer, row_text};
ghost use Rattle.model_sets.specs.Names.{IsSet};
ghost use Rattle.plan_files.specs.Texts.{records_text};
ghost use Rattle.data_tables.specs.DataTexts.{set_records, sets_text};

use csv::ByteRecord;
use model_sets::set_numbers::SET_COUNT;
use model_sets::{Sets, set_word};
use plan_files::{Lines, push_field};
use std::alloc::{AllocError, Global};

/// The members of all sets, a record each, by the numbers of the sets and in the order of the file.
pub(crate) fn sets_text(alloc: Global, sets: &Sets) -> Result<Vec<u8>, AllocError>
    ensures { IfOk result (λ text. text.items ≡ sets_text sets.now) }
{
    let mut lines = Lines::new(alloc);
    push_pair(alloc, &mut lines, b"SET", b"MEMBER")?;
    for set in 1..=SET_COUNT as u8 {
        push_set(alloc, &mut lines, sets, set)?;
    }
    lines.into_text()
}

// Appends the members of a set.
fn push_set(alloc: Global, lines: &mut Lines, sets: &Sets, set: u8) -> Result<(), AllocError>
    requires { IsSet set }
    ensures { OnOk result (lines.new ≡ lines.old ++ records_text (set_records sets.now set)) }
{
    let word = set_word(set).as_bytes();
    for position in 0..sets.count(set) {
        push_pair(alloc, lines, word, sets.name_of(set, position))?;
    }
    Ok(())
}

// Appends a record of two fields.
fn push_pair(
    alloc: Global,
    lines: &mut Lines,
    first: &[u8],
    second: &[u8],
) -> Result<(), AllocError>
    ensures { OnOk result (lines.new ≡ lines.old ++ row_text default_writer (first.now ∷ second.now ∷ [])) }
{
    let mut fields = ByteRecord::new(alloc);
    push_field(&mut fields, first)?;
    push_field(&mut fields, second)?;
    lines.push(&fields)
}
