//! The table of a parameter.

ghost use Rattle.std.specs.Prelude.{◌≡◌, ◌++◌, IfOk, OnOk};
ghost use Rattle.model_sets.specs.Data.{IsUsedParam};
ghost use Rattle.model_sets.specs.Params.{subscript_sets};
ghost use Rattle.plan_files.specs.Texts.{records_text};
ghost use Rattle.data_tables.specs.ParamTables.{cell_records, param_text, positions_over};

use crate::cells::{Cells, push_from};
use crate::columns::push_header;
use crate::ratio_cells::{push_ratio, ratio_of};
use plan_files::Lines;
use std::alloc::{AllocError, Global};

/// The table of a parameter.
pub(crate) fn param_text(alloc: Global, cells: Cells<'_>) -> Result<Vec<u8>, AllocError>
    requires { IsUsedParam cells.model.now.facts cells.param }
    ensures { IfOk result (λ text. text.items ≡ param_text cells.entry.form cells.entry.model.now.facts cells.entry.param) }
{
    let mut lines = Lines::new(alloc);
    push_header(alloc, &mut lines, cells.param)?;
    push_cells(alloc, &mut lines, cells)?;
    lines.into_text()
}

// Appends its records.
fn push_cells(alloc: Global, lines: &mut Lines, cells: Cells<'_>) -> Result<(), AllocError>
    requires { IsUsedParam cells.model.now.facts cells.param }
    ensures { OnOk result (lines.new ≡ lines.old
        ++ records_text (cell_records cells.entry.form cells.entry.model.now.facts cells.entry.param (positions_over cells.entry.model.now.facts.sets (subscript_sets cells.entry.param)))) }
{
    match ratio_of(cells.param) {
        Some(ratio) => push_ratio(alloc, lines, cells, ratio),
        None => {
            let mut begun = Vec::new(alloc);
            push_from(alloc, lines, cells, &mut begun)
        }
    }
}
