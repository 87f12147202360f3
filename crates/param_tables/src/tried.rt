//! The modes, technologies and indices at which a ratio isn't 0, found by trying each.

ghost use Rattle.std.specs.Prelude.{◌≡◌, IfOk, take};
ghost use Rattle.param_tables.specs.Ratios.{AreMembersFor, IsRegion, IsTechnology, has_nonzero_mode, nonzero_indices, nonzero_modes, nonzero_technologies};

use crate::model_data::ModelData;
use crate::ratio_sizes::RatioSizes;
use crate::ratios::{ActivityRatio, RatioIndex};
use model_sets::set_numbers::{MODE_OF_OPERATION, TECHNOLOGY};
use std::alloc::{AllocError, Global};

/// The modes of a technology.
pub(crate) fn tried_modes(
    alloc: Global,
    model: &ModelData,
    ratio: ActivityRatio,
    region: u16,
    technology: u16,
    commodity: u16,
    year: u16,
) -> Result<Vec<u16>, AllocError>
    requires members { AreMembersFor model.now.facts.sets ratio region commodity year }
    requires technology { IsTechnology model.now.facts.sets technology }
    ensures { IfOk result (λ modes. modes.items ≡ nonzero_modes model.now.facts ratio region technology commodity year) }
{
    let mut modes = Vec::new(alloc);
    for mode in 0..model.sets().count(MODE_OF_OPERATION) {
        let index = RatioIndex {
            technology,
            commodity,
            mode,
            year,
        };
        if model.is_ratio_nonzero(ratio, region, index) {
            modes.push(mode)?;
        }
    }
    Ok(modes)
}

/// Whether the technology has such a mode.
fn has_nonzero_mode(
    model: &ModelData,
    ratio: ActivityRatio,
    region: u16,
    technology: u16,
    commodity: u16,
    year: u16,
) -> bool
    requires members { AreMembersFor model.now.facts.sets ratio region commodity year }
    requires technology { IsTechnology model.now.facts.sets technology }
    ensures { result ≡ has_nonzero_mode model.now.facts ratio region technology commodity year }
{
    for mode in 0..model.sets().count(MODE_OF_OPERATION) {
        let index = RatioIndex {
            technology,
            commodity,
            mode,
            year,
        };
        if model.is_ratio_nonzero(ratio, region, index) {
            return true;
        }
    }
    false
}

/// The technologies that have such a mode.
pub(crate) fn tried_technologies(
    alloc: Global,
    model: &ModelData,
    ratio: ActivityRatio,
    region: u16,
    commodity: u16,
    year: u16,
) -> Result<Vec<u16>, AllocError>
    requires { AreMembersFor model.now.facts.sets ratio region commodity year }
    ensures { IfOk result (λ technologies. technologies.items ≡ nonzero_technologies model.now.facts ratio region commodity year) }
{
    let mut technologies = Vec::new(alloc);
    for technology in 0..model.sets().count(TECHNOLOGY) {
        if has_nonzero_mode(model, ratio, region, technology, commodity, year) {
            technologies.push(technology)?;
        }
    }
    Ok(technologies)
}

/// The first indices of a region, at most `most` of them. No more are looked for.
pub(crate) fn tried_indices(
    alloc: Global,
    model: &ModelData,
    ratio: ActivityRatio,
    region: u16,
    most: usize,
) -> Result<Vec<RatioIndex>, AllocError>
    requires { IsRegion model.now.facts.sets region }
    ensures { IfOk result (λ indices. indices.items ≡ take most (nonzero_indices model.now.facts ratio region)) }
{
    let sizes = RatioSizes::new(model.sets(), ratio);
    let mut indices = Vec::new(alloc);
    for offset in 0..sizes.region_size() {
        if indices.len() == most {
            return Ok(indices);
        }
        let index = sizes.index_at(offset);
        if model.is_ratio_nonzero(ratio, region, index) {
            indices.push(index)?;
        }
    }
    Ok(indices)
}
