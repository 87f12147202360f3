//! The text of a table of the data.

ghost use Rattle.std.specs.Prelude.{◌≡◌, IfOk};
ghost use Rattle.discount_factors.specs.Factors.{IsPlaces};
ghost use Rattle.data_tables.specs.DataNames.{IsDataTable};
ghost use Rattle.data_tables.specs.DataTexts.{data_text};

use crate::cells::Cells;
use crate::names::DataTable;
use crate::params::param_text;
use crate::sets::sets_text;
use crate::worth::worth_text;
use param_tables::ModelData;
use plan_tables::NumberForm;
use std::alloc::{AllocError, Global};

/// A table of the data as CSV text, a header and records, with numbers in this form. `Sets`: SET and MEMBER, the members of each set in
/// the order of the file. `Worth`: REGION, YEAR and VALUE, the written factor of so many decimal places (6 or 9) by which what is due in
/// the middle of the year is worth less at the beginning of the first year. A parameter: the sets of its subscripts and VALUE, a record
/// for each index whose value isn't 0; of upper limits and of limits on emissions, for each index at which there is a limit. Indices go
/// by the order of the members, the last subscript running fastest. The time is in proportion to the indices; for the three ratios, where
/// their default is 0, to the values that aren't. Refuses where memory runs out.
pub fn data_text(
    alloc: Global,
    model: &ModelData,
    places: u8,
    table: DataTable,
    form: NumberForm,
) -> Result<Vec<u8>, AllocError>
    requires places { IsPlaces places }
    requires table { IsDataTable model.now.facts table }
    ensures { IfOk result (λ text. text.items ≡ data_text form places model.now.facts table) }
{
    match table {
        DataTable::Sets => sets_text(alloc, model.sets()),
        DataTable::Worth => worth_text(alloc, model, places, form),
        DataTable::Param(param) => param_text(alloc, Cells { model, param, form }),
    }
}
