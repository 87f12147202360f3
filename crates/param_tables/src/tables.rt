//! The tables of all parameters.

ghost use Rattle.std.specs.Prelude.{◌≡◌, [], length, IfErr, IfOk, OnOk};
ghost use Rattle.std.specs.List.{flat_map};
ghost use Rattle.model_sets.specs.Members.{AreSets};
ghost use Rattle.param_tables.specs.BlockData.{data_of};
ghost use Rattle.param_tables.specs.InTurn.{first_of};
ghost use Rattle.param_tables.specs.Refusals.{value_refusals};
ghost use Rattle.mathprog_data.specs.BlocksView.{param_told, params_told};
ghost use Rattle.param_tables.specs.Tables.{AreTablesFor, IsTableOf, IsUsable};
ghost use Rattle.param_tables.specs.Stops.{IsStopDue};
ghost use Rattle.mathprog_data.specs.WellFormed.{AreParamBlocks, IsParamBlock};

use crate::fault::Stop;
use crate::given::placed_values;
use crate::param_table::ParamTable;
use mathprog_data::ParamBlock;
use model_sets::param_numbers::PARAM_COUNT;
use model_sets::{Sets, is_used};
use std::alloc::{AllocError, Global};

/// The table of a statement on a used parameter. Refuses its first refused value.
fn table_of(alloc: Global, sets: &Sets, block: &ParamBlock) -> Result<ParamTable, Stop>
    requires sets { AreSets sets.now }
    requires used { IsUsable block.now.param }
    requires statement { IsParamBlock (param_told block.now) }
    ensures table { IfOk result (IsTableOf sets.now (param_told block.now)) }
    ensures accepted { OnOk result (value_refusals sets.now (param_told block.now) ≡ []) }
    ensures refused { IfErr result (IsStopDue (first_of (value_refusals sets.now (param_told block.now))) sets.now) }
{
    let values = placed_values(alloc, sets, block.param, &block.values)?;
    Ok(ParamTable::new(alloc, block.default, values)?)
}

/// The tables of parameters of which nothing is given.
fn empty_tables(alloc: Global, sets: &Sets) -> Result<Vec<ParamTable>, AllocError>
    ensures { IfOk result (λ tables. AreTablesFor (data_of sets.now []) tables.items) }
{
    let mut tables = Vec::with_capacity(alloc, PARAM_COUNT)?;
    for _ in 0..PARAM_COUNT {
        tables.push(ParamTable::empty(alloc))?;
    }
    Ok(tables)
}

/// The tables of the parameters, from number 1; those of the parameters that are read and not used are empty.
/// Refuses the first refused value of a used parameter, in the order of the text. It may run out of memory.
pub(crate) fn tables_of(
    alloc: Global,
    sets: &Sets,
    blocks: &[ParamBlock],
) -> Result<Vec<ParamTable>, Stop>
    requires sets { AreSets sets.now }
    requires statements { AreParamBlocks (params_told blocks.now) }
    ensures tables { IfOk result (λ tables. AreTablesFor (data_of sets.now (params_told blocks.now)) tables.items) }
    ensures accepted { OnOk result (flat_map (value_refusals sets.now) (params_told blocks.now) ≡ []) }
    ensures refused { IfErr result (IsStopDue (first_of (flat_map (value_refusals sets.now) (params_told blocks.now))) sets.now) }
{
    let mut tables = empty_tables(alloc, sets)?;
    for block in blocks {
        // A parameter that is used where it has a statement has one: this.
        if is_used(block.param, true) {
            tables[usize::from(block.param - 1)] = table_of(alloc, sets, block)?;
        }
    }
    Ok(tables)
}
