//! Whether a parameter has a value in its range at each of its indices.

ghost use Rattle.std.specs.Prelude.{◌≡◌, [], length, IfErr, OnOk};
ghost use Rattle.model_sets.specs.Data.{Data, indices_of};
ghost use Rattle.model_sets.specs.Params.{IsParam, range_of};
ghost use Rattle.param_tables.specs.InTurn.{first_of};
ghost use Rattle.param_tables.specs.Refusals.{param_refusals, value_fault};
ghost use Rattle.param_tables.specs.Tables.{IsTable, IsTableFor, value_else};
ghost use Rattle.param_tables.specs.Stops.{IsStopDue};

use crate::fault::{Cell, CellFault, Stop, refusal_at};
use crate::first_fault::first_fault;
use crate::indices::{index_at, index_count};
use crate::param_table::{ParamTable, value_else};
use crate::ranges::range_fault;
use model_sets::{Sets, range_of, subscript_sets};
use std::alloc::Global;

/// The fault of the parameter at an index at which no value is given.
fn missing_fault(param: u8, default: Option<i128>) -> Option<CellFault>
    requires { IsParam param }
    ensures { result ≡ value_fault (range_of param) (value_else param default) }
{
    match value_else(param, default) {
        Some(value) => range_fault(range_of(param), value),
        None => Some(CellFault::NoValue),
    }
}

/// Whether the parameter has a value in its range at each of its indices. Refuses the first index, in the
/// order of the members, that has no value or one out of its range. It may run out of memory.
pub(crate) fn check_param(
    alloc: Global,
    sets: &Sets,
    param: u8,
    table: &ParamTable,
) -> Result<(), Stop>
    requires listed { IsParam param }
    requires shape { IsTable (length (indices_of sets.now param)) table.now }
    ensures accepted { OnOk result ((d : Data) → d.sets ≡ sets.now → IsTableFor d param table.now → param_refusals d param ≡ []) }
    ensures refused { IfErr result (λ stop. (d : Data) → d.sets ≡ sets.now → IsTableFor d param table.now → IsStopDue (first_of (param_refusals d param)) sets.now stop) }
{
    let subscripts = subscript_sets(param);
    let size = index_count(sets, subscripts);
    let missing = missing_fault(param, table.default);
    let Some(found) = first_fault(table, range_of(param), missing, size) else {
        return Ok(());
    };
    let index = index_at(alloc, sets, subscripts, found.place)?;
    Err(Stop::Fault(refusal_at(found.fault, Cell { param, index })))
}
