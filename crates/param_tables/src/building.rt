//! From what a data section says to checked data.

ghost use Rattle.std.specs.Prelude.{◌≡◌, [], None, IfErr, IfOk, OnOk};
ghost use Rattle.std.specs.List.{flat_map};
ghost use Rattle.model_sets.specs.Data.{Data, used_params};
ghost use Rattle.model_sets.specs.Members.{AreSets};
ghost use Rattle.param_tables.specs.BlockData.{data_told, has_second, set_lists};
ghost use Rattle.param_tables.specs.Built.{AreComplete, IsBuiltFrom};
ghost use Rattle.param_tables.specs.Canonical.{canonical};
ghost use Rattle.param_tables.specs.InTurn.{first_of};
ghost use Rattle.param_tables.specs.RatioPlaces.{AreKeptWith};
ghost use Rattle.param_tables.specs.Refusals.{first_refusal, param_refusals};
ghost use Rattle.mathprog_data.specs.BlocksView.{blocks_told, params_told};
ghost use Rattle.param_tables.specs.Tables.{AreTablesFor, HaveShapes};
ghost use Rattle.param_tables.specs.Stops.{IsStopDue};
ghost use Rattle.param_tables.specs.Told.{IsBuildFailDue};
ghost use Rattle.param_tables.specs.View.{AreKept, facts_of};
ghost use Rattle.mathprog_data.specs.WellFormed.{AreWellFormed};

use crate::checks::check_param;
use crate::fault::{BuildFail, BuildFault, Stop};
use crate::model_data::ModelData;
use crate::param_table::ParamTable;
use crate::ratio_places::AllRatioPlaces;
use crate::tables::tables_of;
use mathprog_data::{Blocks, ParamBlock};
use model_sets::param_numbers::{DISCOUNT_RATE_IDV, PARAM_COUNT};
use model_sets::set_numbers::STORAGE;
use model_sets::{Sets, is_used};
use std::alloc::Global;

/// The number of the last parameter.
const LAST_PARAM: u8 = PARAM_COUNT as u8;

/// The tables of the parameters, and the places at which their ratios aren't 0.
#[derive(Drop)]
struct CheckedParts {
    tables: Vec<ParamTable>,
    ratios: AllRatioPlaces,
}

/// Whether one of the statements is on DiscountRateIdv, if only one without values.
fn has_second(blocks: &[ParamBlock]) -> bool
    ensures { result ≡ has_second (params_told blocks.now) }
{
    for block in blocks {
        if block.param == DISCOUNT_RATE_IDV {
            return true;
        }
    }
    false
}

/// Whether each used parameter has a value in its range at each of its indices; `second` is whether the text
/// has a statement for DiscountRateIdv. Refuses the first fault, parameter by parameter in the order of their
/// numbers. It may run out of memory.
fn check_params(alloc: Global, sets: &Sets, tables: &[ParamTable], second: bool) -> Result<(), Stop>
    requires { HaveShapes sets.now tables.now }
    ensures accepted { OnOk result ((d : Data) → d.sets ≡ sets.now → d.second ≡ second → AreTablesFor d tables.now → flat_map (param_refusals d) (used_params d) ≡ []) }
    ensures refused { IfErr result (λ stop. (d : Data) → d.sets ≡ sets.now → d.second ≡ second → AreTablesFor d tables.now → IsStopDue (first_of (flat_map (param_refusals d) (used_params d))) sets.now stop) }
{
    for param in 1..LAST_PARAM + 1 {
        if is_used(param, second) {
            check_param(alloc, sets, param, &tables[usize::from(param - 1)])?;
        }
    }
    Ok(())
}

/// The tables of the parameters, checked. Refuses as `build` does.
fn checked_tables(
    alloc: Global,
    blocks: &Blocks,
    sets: &Sets,
    second: bool,
) -> Result<Vec<ParamTable>, Stop>
    requires blocks { AreWellFormed (blocks_told blocks.now) }
    requires sets { sets.now ≡ set_lists (blocks_told blocks.now) }
    requires second { second ≡ has_second (params_told blocks.now.params.items) }
    ensures kept { IfOk result (λ tables. AreKept sets.now tables.items second) }
    ensures facts { IfOk result (λ tables. facts_of sets.now tables.items second ≡ canonical (data_told (blocks_told blocks.now))) }
    ensures accepted { OnOk result (first_refusal (blocks_told blocks.now) ≡ None) }
    ensures refused { IfErr result (IsStopDue (first_refusal (blocks_told blocks.now)) sets.now) }
{
    if sets.count(STORAGE) > 0 {
        return Err(Stop::Fault(BuildFault::Storage));
    }
    let tables = tables_of(alloc, sets, blocks.params.as_slice())?;
    check_params(alloc, sets, tables.as_slice(), second)?;
    Ok(tables)
}

/// The checked tables, with the places at which their ratios aren't 0. Refuses as `build` does.
fn checked_parts(
    alloc: Global,
    blocks: &Blocks,
    sets: &Sets,
    second: bool,
) -> Result<CheckedParts, Stop>
    requires blocks { AreWellFormed (blocks_told blocks.now) }
    requires sets { sets.now ≡ set_lists (blocks_told blocks.now) }
    requires second { second ≡ has_second (params_told blocks.now.params.items) }
    ensures kept { IfOk result (λ parts. AreKeptWith sets.now parts.tables.items second parts.ratios) }
    ensures facts { IfOk result (λ parts. facts_of sets.now parts.tables.items second ≡ canonical (data_told (blocks_told blocks.now))) }
    ensures accepted { OnOk result (first_refusal (blocks_told blocks.now) ≡ None) }
    ensures refused { IfErr result (IsStopDue (first_refusal (blocks_told blocks.now)) sets.now) }
{
    let tables = checked_tables(alloc, blocks, sets, second)?;
    let ratios = AllRatioPlaces::new(alloc, sets, tables.as_slice())?;
    Ok(CheckedParts { tables, ratios })
}

/// The checked data of the blocks, which are such as a text can give, over the sets that `sets_of` answered
/// for the same blocks.
///
/// Refuses the first of these, and hands the sets back: a member of STORAGE (`Storage`); of the values of
/// used parameters, in the order of the text, one whose index has a name that is no member
/// of its set (`UnknownMember`) or was given before (`ValueTwice`), each with its place in the text; and
/// then, parameter by parameter in the order of their numbers, the first index, in the order of the members
/// with the last subscript running fastest, that has neither a value nor a default (`NoValue`) or whose value
/// lies outside the parameter's range (the other faults), with the parameter and the index. DiscountRateIdv is
/// used, and then last, where the text has a statement for it, if only one without values. Nobody looks at the
/// members and values of the parameters that are read and not used. It may run out of memory at any time.
///
/// Only the values given are kept, and looked at: time and memory are in proportion to what is given, a sort
/// of it apart, however many indices the parameters have.
pub fn build(alloc: Global, blocks: &Blocks, sets: Sets) -> Result<ModelData, BuildFail>
    requires blocks { AreWellFormed (blocks_told blocks.now) }
    requires sets { sets ≡ set_lists (blocks_told blocks.now) }
    ensures built { IfOk result (IsBuiltFrom (blocks_told blocks.now)) }
    ensures complete { IfOk result (λ model. AreComplete model.facts) }
    ensures accepted { OnOk result (first_refusal (blocks_told blocks.now) ≡ None) }
    ensures refused { IfErr result (IsBuildFailDue (first_refusal (blocks_told blocks.now)) (set_lists (blocks_told blocks.now))) }
{
    let second = has_second(blocks.params.as_slice());
    match checked_parts(alloc, blocks, &sets, second) {
        Ok(parts) => Ok(ModelData::new(sets, parts.tables, second, parts.ratios, blocks.rounded)),
        Err(Stop::Fault(fault)) => Err(BuildFail::Fault(fault, sets)),
        Err(Stop::Memory) => Err(BuildFail::Memory),
    }
}
