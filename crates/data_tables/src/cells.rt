//! The records of a parameter's values.

ghost use Rattle.std.specs.Prelude.{◌≡◌, ◌++◌, ◌∷◌, [], All, OnOk};
ghost use Rattle.csv.specs.Records.{fields_of, partial_of};
ghost use Rattle.csv.specs.Writing.{default_writer, row_text};
ghost use Rattle.exact_num.specs.Value.{value_of};
ghost use Rattle.model_sets.specs.Data.{IsUsedParam};
ghost use Rattle.model_sets.specs.Names.{IsSet};
ghost use Rattle.model_sets.specs.Params.{subscript_sets};
ghost use Rattle.param_tables.specs.Positions.{ArePositions, IsIndexOf, names_at, names_over};
ghost use Rattle.plan_files.specs.Texts.{records_text};
ghost use Rattle.plan_tables.specs.ValueTables.{number_text};
ghost use Rattle.data_tables.specs.ParamTables.{cell_records, says};
ghost use Rattle.data_tables.specs.Walks.{AreBegun, indices_from};

use csv::ByteRecord;
use exact_num::Frac;
use model_sets::param_numbers::{
    ANNUAL_EMISSION_LIMIT, MODEL_PERIOD_EMISSION_LIMIT, TOTAL_ANNUAL_MAX_CAPACITY,
    TOTAL_ANNUAL_MAX_CAPACITY_INVESTMENT, TOTAL_TECHNOLOGY_ANNUAL_ACTIVITY_UPPER_LIMIT,
    TOTAL_TECHNOLOGY_MODEL_PERIOD_ACTIVITY_UPPER_LIMIT,
};
use model_sets::{Sets, subscript_sets};
use param_tables::ModelData;
use plan_files::{Lines, push_field};
use plan_tables::{NumberForm, push_number};
use std::alloc::{AllocError, Global};

/// Whose values are written: of a parameter of a model, with numbers in this form.
#[derive(Clone, Copy)]
pub(crate) struct Cells<'a> {
    pub(crate) model: &'a ModelData,
    pub(crate) param: u8,
    pub(crate) form: NumberForm,
}

/// Appends a record for each index that begins with these positions and at which the value says something, in order.
pub(crate) fn push_from(
    alloc: Global,
    lines: &mut Lines,
    cells: Cells<'_>,
    begun: &mut Vec<u16>,
) -> Result<(), AllocError>
    requires used { IsUsedParam cells.model.now.facts cells.param }
    requires begun { AreBegun cells.model.now.facts.sets cells.param begun.old.items }
    ensures lines { OnOk result (lines.new ≡ lines.old
        ++ records_text (cell_records cells.entry.form cells.entry.model.now.facts cells.entry.param (indices_from cells.entry.model.now.facts.sets cells.entry.param begun.old.items))) }
    ensures kept { OnOk result (begun.new.items ≡ begun.old.items) }
{
    let sets = subscript_sets(cells.param);
    let depth = begun.len();
    if depth >= sets.len() {
        return push_cell(alloc, lines, cells, begun);
    }
    for position in 0..cells.model.sets().count(sets[depth]) {
        begun.push(position)?;
        push_from(alloc, lines, cells, begun)?;
        begun.truncate(depth);
    }
    Ok(())
}

/// Appends the record of an index, where its value says something.
pub(crate) fn push_cell(
    alloc: Global,
    lines: &mut Lines,
    cells: Cells<'_>,
    at: &[u16],
) -> Result<(), AllocError>
    requires used { IsUsedParam cells.model.now.facts cells.param }
    requires index { IsIndexOf cells.model.now.facts.sets cells.param at.now }
    ensures { OnOk result (lines.new ≡ lines.old
        ++ records_text (cell_records cells.entry.form cells.entry.model.now.facts cells.entry.param (at.now ∷ []))) }
{
    let value = cells.model.at(cells.param, at);
    if says(cells.param, value) {
        push_record(alloc, lines, cells, at, value)
    } else {
        Ok(())
    }
}

// Appends the record of an index with the value there.
fn push_record(
    alloc: Global,
    lines: &mut Lines,
    cells: Cells<'_>,
    at: &[u16],
    value: Frac,
) -> Result<(), AllocError>
    requires used { IsUsedParam cells.model.now.facts cells.param }
    requires index { IsIndexOf cells.model.now.facts.sets cells.param at.now }
    ensures { OnOk result (lines.new ≡ lines.old
        ++ row_text default_writer (names_at cells.entry.model.now.facts.sets cells.entry.param at.now ++ number_text cells.entry.form (value_of value) ∷ [])) }
{
    let mut fields = ByteRecord::new(alloc);
    push_names(
        &mut fields,
        cells.model.sets(),
        subscript_sets(cells.param),
        at,
    )?;
    push_number(alloc, &mut fields, value, cells.form)?;
    lines.push(&fields)
}

// Whether a value says something: of a limit, that there is one, and of all else, that it isn't 0.
fn says(param: u8, value: Frac) -> bool
    ensures { result ≡ says param (value_of value) }
{
    match param {
        TOTAL_TECHNOLOGY_MODEL_PERIOD_ACTIVITY_UPPER_LIMIT => value.num > 0,
        TOTAL_ANNUAL_MAX_CAPACITY
        | TOTAL_ANNUAL_MAX_CAPACITY_INVESTMENT
        | TOTAL_TECHNOLOGY_ANNUAL_ACTIVITY_UPPER_LIMIT
        | ANNUAL_EMISSION_LIMIT
        | MODEL_PERIOD_EMISSION_LIMIT => !(value.num == -1 && value.den == 1),
        _ => value.num != 0,
    }
}

// Appends the names of the members at these positions, of one set after another.
fn push_names(
    fields: &mut ByteRecord,
    sets: &Sets,
    over: &[u8],
    at: &[u16],
) -> Result<(), AllocError>
    requires whole { partial_of fields.old ≡ [] }
    requires within { ArePositions sets.now over.now at.now }
    requires listed { All IsSet over.now }
    ensures fields { OnOk result (fields_of fields.new ≡ fields_of fields.old ++ names_over sets.now over.now at.now) }
    ensures whole { OnOk result (partial_of fields.new ≡ []) }
{
    for place in 0..over.len() {
        push_field(fields, sets.name_of(over[place], at[place]))?;
    }
    Ok(())
}
