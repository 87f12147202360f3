//! The records of a ratio's values. Of the ratios only the indices at which they aren't 0 are looked at, since there are far more indices
//! than the model has rows.

ghost use Rattle.std.specs.Prelude.{◌≡◌, ◌++◌, ◌∷◌, [], map, IfSome, OnOk};
ghost use Rattle.model_sets.specs.Data.{IsUsedParam};
ghost use Rattle.param_tables.specs.Ratios.{IsRegion, nonzero_indices, ratio_param};
ghost use Rattle.plan_files.specs.Texts.{records_text};
ghost use Rattle.data_tables.specs.ParamTables.{cell_records, positions_over};
ghost use Rattle.data_tables.specs.RatioWalks.{AreWithin, positions_of};
ghost use Rattle.model_sets.specs.Params.{subscript_sets};

use crate::cells::{Cells, push_cell};
use model_sets::param_numbers::{
    EMISSION_ACTIVITY_RATIO, INPUT_ACTIVITY_RATIO, OUTPUT_ACTIVITY_RATIO,
};
use model_sets::set_numbers::REGION;
use param_tables::{ActivityRatio, RatioIndex};
use plan_files::Lines;
use std::alloc::{AllocError, Global};

/// The ratio whose parameter has this number, if there is one.
pub(crate) fn ratio_of(param: u8) -> Option<ActivityRatio>
    ensures { IfSome result (λ ratio. ratio_param ratio ≡ param) }
{
    match param {
        INPUT_ACTIVITY_RATIO => Some(ActivityRatio::Input),
        OUTPUT_ACTIVITY_RATIO => Some(ActivityRatio::Output),
        EMISSION_ACTIVITY_RATIO => Some(ActivityRatio::Emission),
        _ => None,
    }
}

/// Appends a record for each index of the ratio at which it isn't 0, in order.
pub(crate) fn push_ratio(
    alloc: Global,
    lines: &mut Lines,
    cells: Cells<'_>,
    ratio: ActivityRatio,
) -> Result<(), AllocError>
    requires { ratio_param ratio ≡ cells.param }
    ensures { OnOk result (lines.new ≡ lines.old
        ++ records_text (cell_records cells.entry.form cells.entry.model.now.facts cells.entry.param (positions_over cells.entry.model.now.facts.sets (subscript_sets cells.entry.param)))) }
{
    for region in 0..cells.model.sets().count(REGION) {
        let indices = cells.model.nonzero_indices(alloc, ratio, region)?;
        push_region(alloc, lines, cells, region, indices.as_slice())?;
    }
    Ok(())
}

// Appends the records of these indices of a region.
fn push_region(
    alloc: Global,
    lines: &mut Lines,
    cells: Cells<'_>,
    region: u16,
    indices: &[RatioIndex],
) -> Result<(), AllocError>
    requires used { IsUsedParam cells.model.now.facts cells.param }
    requires within { AreWithin cells.model.now.facts.sets cells.param region indices.now }
    ensures { OnOk result (lines.new ≡ lines.old
        ++ records_text (cell_records cells.entry.form cells.entry.model.now.facts cells.entry.param (map (positions_of region) indices.now))) }
{
    for index in indices {
        let at = [
            region,
            index.technology,
            index.commodity,
            index.mode,
            index.year,
        ];
        push_cell(alloc, lines, cells, &at)?;
    }
    Ok(())
}
