//! Sets and tables with another value of one parameter at one index.

ghost use Rattle.std.specs.Prelude.{◌≡◌, ◌-◌, ◌<◌, ◌≤◌, [], length, IfOk, slice_index_or};
ghost use Rattle.model_sets.specs.Data.{IsUsedParam, indices_of};
ghost use Rattle.model_sets.specs.Params.{range_of};
ghost use Rattle.param_tables.specs.Built.{IsValueIn};
ghost use Rattle.param_tables.specs.Canonical.{with_value_at};
ghost use Rattle.param_tables.specs.ChangedTables.{AreCopiesOf, AreTablesWith};
ghost use Rattle.param_tables.specs.RatioPlaces.{AreKeptWith};
ghost use Rattle.param_tables.specs.View.{AreKept, facts_of};

use crate::copied_sets::copied_sets;
use crate::param_table::ParamTable;
use crate::ratio_places::AllRatioPlaces;
use model_sets::Sets;
use std::alloc::{AllocError, Global};

/// Sets, the tables of their parameters, and the places at which their ratios aren't 0.
#[derive(Drop)]
pub(crate) struct ChangedParts {
    pub(crate) sets: Sets,
    pub(crate) tables: Vec<ParamTable>,
    pub(crate) ratios: AllRatioPlaces,
}

/// A value of a parameter, in billionths, and the place of its index.
#[derive(Clone, Copy)]
pub(crate) struct PlacedValue {
    pub(crate) param: u8,
    pub(crate) place: u64,
    pub(crate) value: i128,
}

/// The tables once more.
fn copied_tables(alloc: Global, tables: &[ParamTable]) -> Result<Vec<ParamTable>, AllocError>
    ensures { IfOk result (λ copies. AreCopiesOf tables.now copies.items) }
{
    let mut copies = Vec::with_capacity(alloc, tables.len())?;
    for table in tables {
        copies.push(table.copied(alloc)?)?;
    }
    Ok(copies)
}

/// The tables with the changed value.
fn tables_with(
    alloc: Global,
    tables: &[ParamTable],
    change: PlacedValue,
) -> Result<Vec<ParamTable>, AllocError>
    requires least { 1 ≤ change.param }
    requires most { change.param ≤ length tables.now }
    ensures { IfOk result (λ changed. AreTablesWith change.param change.place change.value tables.now changed.items) }
{
    let at = usize::from(change.param - 1);
    let table = tables[at].with_value(alloc, change.place, change.value)?;
    let mut changed = copied_tables(alloc, tables)?;
    changed[at] = table;
    Ok(changed)
}

/// The parts of the data with the changed value. It may run out of memory.
pub(crate) fn changed_parts(
    alloc: Global,
    sets: &Sets,
    tables: &[ParamTable],
    second: bool,
    change: PlacedValue,
) -> Result<ChangedParts, AllocError>
    requires kept { AreKept sets.now tables.now second }
    requires used { IsUsedParam (facts_of sets.now tables.now second) change.param }
    requires place { change.place < length (indices_of sets.now change.param) }
    requires value { IsValueIn (range_of change.param) change.value }
    ensures sets { IfOk result (λ parts. parts.sets ≡ sets.now) }
    ensures kept { IfOk result (λ parts. AreKeptWith sets.now parts.tables.items second parts.ratios) }
    ensures changed { IfOk result (λ parts. facts_of sets.now parts.tables.items second ≡ with_value_at (facts_of sets.now tables.now second) change.param (slice_index_or (indices_of sets.now change.param) change.place []) change.value) }
{
    let sets = copied_sets(alloc, sets)?;
    let tables = tables_with(alloc, tables, change)?;
    let ratios = AllRatioPlaces::new(alloc, &sets, tables.as_slice())?;
    Ok(ChangedParts {
        sets,
        tables,
        ratios,
    })
}
