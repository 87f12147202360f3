//! A table after a line with its name.

ghost use Rattle.std.specs.Prelude.{◌≡◌, ◌++◌, OnOk, codes, map};
ghost use Rattle.std.specs.List.{AllByRecursion};
ghost use Rattle.discount_factors.specs.Factors.{IsPlaces};
ghost use Rattle.model_sets.specs.Data.{Data};
ghost use Rattle.plan_files.specs.Listed.{IsListedRow, name_of_row};
ghost use Rattle.row_core.specs.Kinds.{IsKind};
ghost use Rattle.row_core.specs.NameTexts.{VariableIsWithin};
ghost use Rattle.plan_tables.specs.ValueTables.{named_text};
ghost use Rattle.data_tables.specs.DataNames.{IsDataTable};
ghost use Rattle.page_tables.specs.PageTables.{data_word, named_data, named_prices, price_word};

use crate::texts::Source;
use data_tables::{DataTable, data_text};
use model_sets::{Sets, param_word};
use plan_tables::{NumberForm, Table, table_text};
use price_tables::{PriceTable, price_text};
use row_core::{Multipliers, Plan, var_word};
use std::alloc::{AllocError, Global};

/// Appends a table of the data.
pub(crate) fn push_data(
    alloc: Global,
    out: &mut Vec<u8>,
    source: Source<'_>,
    table: DataTable,
) -> Result<(), AllocError>
    requires places { IsPlaces source.places }
    requires table { IsDataTable source.model.now.facts table }
    ensures { OnOk result (out.new.items ≡ out.old.items ++ named_data source.entry.form source.entry.places source.entry.model.now.facts table) }
{
    push_line(out, data_word(table))?;
    out.extend_from_slice(&data_text(alloc, source.model, source.places, table, source.form)?)
}

// The name of a table of the data.
fn data_word(table: DataTable) -> &'static str
    requires { (d : Data) × IsDataTable d table }
    ensures { result.now ≡ data_word table }
{
    match table {
        DataTable::Sets => "sets",
        DataTable::Worth => "worth",
        DataTable::Param(param) => param_word(param),
    }
}

/// Appends the table of a kind of a plan's variables.
pub(crate) fn push_kind(
    alloc: Global,
    out: &mut Vec<u8>,
    sets: &Sets,
    plan: &Plan,
    kind: u8,
    form: NumberForm,
) -> Result<(), AllocError>
    requires listed { IsKind kind }
    requires within { AllByRecursion (λ e. VariableIsWithin sets.now e.0) plan.now }
    ensures { OnOk result (out.new.items ≡ out.old.items ++ named_text sets.now form plan.now kind) }
{
    push_line(out, var_word(kind))?;
    out.extend_from_slice(&table_text(alloc, sets, plan, Table::Values(kind), form)?)
}

/// Appends a table of prices.
pub(crate) fn push_prices(
    alloc: Global,
    out: &mut Vec<u8>,
    source: Source<'_>,
    multipliers: &Multipliers,
    table: PriceTable,
) -> Result<(), AllocError>
    requires { AllByRecursion (IsListedRow source.model.now.facts.sets) (map name_of_row source.rows.now) }
    ensures { OnOk result (out.new.items ≡ out.old.items ++ named_prices source.entry.form source.entry.model.now.facts.sets source.entry.rows.now multipliers.now table) }
{
    push_line(out, price_word(table))?;
    let sets = source.model.sets();
    let text = price_text(alloc, sets, source.rows, multipliers, table, source.form)?;
    out.extend_from_slice(&text)
}

// The name of a table of prices.
fn price_word(table: PriceTable) -> &'static str
    ensures { result.now ≡ price_word table }
{
    match table {
        PriceTable::Limits => "limits",
        PriceTable::Fuels => "prices",
    }
}

// Appends a line.
fn push_line(out: &mut Vec<u8>, word: &str) -> Result<(), AllocError>
    ensures { OnOk result (out.new.items ≡ out.old.items ++ (word.now ++ codes "\n")) }
{
    out.extend_from_slice(word.as_bytes())?;
    out.extend_from_slice(b"\n")
}
