//! The tables of a page, one after another.

ghost use Rattle.std.specs.Prelude.{◌≡◌, ◌++◌, IfOk, OnOk, map};
ghost use Rattle.std.specs.List.{AllByRecursion, flat_map};
ghost use Rattle.discount_factors.specs.Factors.{IsPlaces};
ghost use Rattle.plan_files.specs.Listed.{IsListedRow, name_of_row};
ghost use Rattle.data_tables.specs.DataNames.{IsDataTable};
ghost use Rattle.row_core.specs.Kinds.{IsKind};
ghost use Rattle.row_core.specs.NameTexts.{VariableIsWithin};
ghost use Rattle.page_tables.specs.PageTables.{HasValuesWithin, data_texts, direction_tables, kinds_text, no_plan_tables, plan_tables, price_texts, proof_tables};

use crate::lists::{DIRECTION_KINDS, PAGE_DATA, PAGE_KINDS, PAGE_PRICES};
use crate::named::{push_data, push_kind, push_prices};
use data_tables::DataTable;
use model_sets::Sets;
use param_tables::ModelData;
use plan_tables::NumberForm;
use price_tables::PriceTable;
use proof_files::Proof;
use row_core::{Multipliers, Plan, Row};
use std::alloc::{AllocError, Global};

/// What tables are made from besides a plan and its multipliers.
#[derive(Clone, Copy)]
pub struct Source<'a> {
    pub model: &'a ModelData,
    /// The rows of the model.
    pub rows: &'a [Row],
    /// How many decimal places written factors have.
    pub places: u8,
    pub form: NumberForm,
}

/// The tables that the page of a plan is drawn from, each after a line with its name: twelve of the data, of which the sets come first, 17
/// of the plan's values, and `limits` and `prices`. Refuses where memory runs out.
#[tactic(auto, unfolding(crate::specs::PageTables::plan_tables))]
pub fn plan_tables(
    alloc: Global,
    source: Source<'_>,
    plan: &Plan,
    multipliers: &Multipliers,
) -> Result<Vec<u8>, AllocError>
    requires places { IsPlaces source.places }
    requires listed { AllByRecursion (IsListedRow source.model.now.facts.sets) (map name_of_row source.rows.now) }
    requires within { AllByRecursion (λ e. VariableIsWithin source.model.now.facts.sets e.0) plan.now }
    ensures { IfOk result (λ text. text.items ≡ plan_tables source.entry.form source.entry.places source.entry.model.now.facts source.entry.rows.now plan.now multipliers.now) }
{
    let mut out = Vec::new(alloc);
    push_all_data(alloc, &mut out, source, &PAGE_DATA)?;
    push_kinds(
        alloc,
        &mut out,
        source.model.sets(),
        plan,
        &PAGE_KINDS,
        source.form,
    )?;
    push_all_prices(alloc, &mut out, source, multipliers, &PAGE_PRICES)?;
    Ok(out)
}

// The tables that the page of a direction along which the cost falls without end is drawn from: the sets, and how fast each activity, new
// capacity and trade grows along it.
#[tactic(auto, unfolding(crate::specs::PageTables::direction_tables))]
fn direction_tables(
    alloc: Global,
    source: Source<'_>,
    direction: &Plan,
) -> Result<Vec<u8>, AllocError>
    requires places { IsPlaces source.places }
    requires within { AllByRecursion (λ e. VariableIsWithin source.model.now.facts.sets e.0) direction.now }
    ensures { IfOk result (λ text. text.items ≡ direction_tables source.entry.form source.entry.places source.entry.model.now.facts direction.now) }
{
    let mut out = Vec::new(alloc);
    push_data(alloc, &mut out, source, DataTable::Sets)?;
    push_kinds(
        alloc,
        &mut out,
        source.model.sets(),
        direction,
        &DIRECTION_KINDS,
        source.form,
    )?;
    Ok(out)
}

/// The tables of the page of what a proof shows: of an optimum those of its plan, of a plan with a direction those of the direction, and of
/// a refutation the sets. Refuses where memory runs out.
pub fn proof_tables(alloc: Global, source: Source<'_>, proof: &Proof) -> Result<Vec<u8>, AllocError>
    requires places { IsPlaces source.places }
    requires listed { AllByRecursion (IsListedRow source.model.now.facts.sets) (map name_of_row source.rows.now) }
    requires within { HasValuesWithin source.model.now.facts.sets proof.now }
    ensures { IfOk result (λ text. text.items ≡ proof_tables source.entry.form source.entry.places source.entry.model.now.facts source.entry.rows.now proof.now) }
{
    match proof {
        Proof::Optimum { plan, multipliers } => plan_tables(alloc, source, plan, multipliers),
        Proof::Refutation { .. } => no_plan_tables(alloc, source),
        Proof::Descent { direction, .. } => direction_tables(alloc, source, direction),
    }
}

// The table of a page where there is no plan: the sets.
#[tactic(auto, unfolding(crate::specs::PageTables::no_plan_tables))]
fn no_plan_tables(alloc: Global, source: Source<'_>) -> Result<Vec<u8>, AllocError>
    requires { IsPlaces source.places }
    ensures { IfOk result (λ text. text.items ≡ no_plan_tables source.entry.form source.entry.places source.entry.model.now.facts) }
{
    let mut out = Vec::new(alloc);
    push_data(alloc, &mut out, source, DataTable::Sets)?;
    Ok(out)
}

// Appends these tables of the data.
fn push_all_data(
    alloc: Global,
    out: &mut Vec<u8>,
    source: Source<'_>,
    tables: &[DataTable],
) -> Result<(), AllocError>
    requires places { IsPlaces source.places }
    requires tables { AllByRecursion (IsDataTable source.model.now.facts) tables.now }
    ensures { OnOk result (out.new.items ≡ out.old.items ++ data_texts source.entry.form source.entry.places source.entry.model.now.facts tables.now) }
{
    for table in tables {
        push_data(alloc, out, source, *table)?;
    }
    Ok(())
}

// Appends the tables of these kinds of variables.
fn push_kinds(
    alloc: Global,
    out: &mut Vec<u8>,
    sets: &Sets,
    plan: &Plan,
    kinds: &[u8],
    form: NumberForm,
) -> Result<(), AllocError>
    requires listed { AllByRecursion IsKind kinds.now }
    requires within { AllByRecursion (λ e. VariableIsWithin sets.now e.0) plan.now }
    ensures { OnOk result (out.new.items ≡ out.old.items ++ kinds_text form sets.now plan.now kinds.now) }
{
    for kind in kinds {
        push_kind(alloc, out, sets, plan, *kind, form)?;
    }
    Ok(())
}

// Appends these tables of prices.
fn push_all_prices(
    alloc: Global,
    out: &mut Vec<u8>,
    source: Source<'_>,
    multipliers: &Multipliers,
    tables: &[PriceTable],
) -> Result<(), AllocError>
    requires { AllByRecursion (IsListedRow source.model.now.facts.sets) (map name_of_row source.rows.now) }
    ensures { OnOk result (out.new.items ≡ out.old.items ++ price_texts source.entry.form source.entry.model.now.facts.sets source.entry.rows.now multipliers.now tables.now) }
{
    for table in tables {
        push_prices(alloc, out, source, multipliers, *table)?;
    }
    Ok(())
}
