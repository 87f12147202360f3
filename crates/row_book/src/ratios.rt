//! Where the ratios of input, of output and of emission aren't 0.

ghost use Rattle.std.specs.Prelude.{◌≡◌, ◌<◌, IfOk, map, take};
ghost use Rattle.model_sets.specs.Names as sets;
ghost use Rattle.named_equations.specs.Positions.{count_of};
ghost use Rattle.row_book.specs.Ratios.{cell_at, cells_of_ratio, cells_of_some_mode, with_mode};

use param_tables::{ActivityRatio, ModelData, RatioIndex};
use row_core::Index;
use std::alloc::{AllocError, Global};

/// The technologies, fuels or emissions, modes and years of a region where the ratio isn't 0, in order.
pub(crate) fn cells_of_ratio(
    alloc: Global,
    model: &ModelData,
    ratio: ActivityRatio,
    region: u16,
) -> Result<Vec<Index>, AllocError>
    requires { region < count_of model.now.facts sets.region }
    ensures { IfOk result (λ cells. cells.items ≡ cells_of_ratio model.now.facts ratio region) }
{
    let indices = model.nonzero_indices(alloc, ratio, region)?;
    let cells = cells_at(alloc, ratio, region, &indices)?;
    Ok(cells)
}

/// The first `most` of them, or all where there are fewer.
pub(crate) fn first_cells_of_ratio(
    alloc: Global,
    model: &ModelData,
    ratio: ActivityRatio,
    region: u16,
    most: usize,
) -> Result<Vec<Index>, AllocError>
    requires { region < count_of model.now.facts sets.region }
    ensures { IfOk result (λ cells. cells.items ≡ take most (cells_of_ratio model.now.facts ratio region)) }
{
    let indices = model.first_nonzero_indices(alloc, ratio, region, most)?;
    let cells = cells_at(alloc, ratio, region, &indices)?;
    Ok(cells)
}

/// The indices of a ratio in a region, each with 0 for the other subscripts.
fn cells_at(
    alloc: Global,
    ratio: ActivityRatio,
    region: u16,
    indices: &[RatioIndex],
) -> Result<Vec<Index>, AllocError>
    ensures { IfOk result (λ cells. cells.items ≡ map (cell_at ratio region) indices.now) }
{
    indices
        .iter()
        .map(|at| cell_at(ratio, region, *at))
        .collect(alloc)
}

/// An index of a ratio in a region, with 0 for the other subscripts. What a technology takes in, puts out or
/// gives off is a fuel or an emission.
fn cell_at(ratio: ActivityRatio, region: u16, at: RatioIndex) -> Index
    ensures { result ≡ cell_at ratio region at }
{
    let (fuel, emission) = match ratio {
        ActivityRatio::Input | ActivityRatio::Output => (at.commodity, 0),
        ActivityRatio::Emission => (0, at.commodity),
    };
    Index {
        region,
        other: 0,
        slice: 0,
        tech: at.technology,
        fuel,
        emission,
        mode: at.mode,
        year: at.year,
    }
}

/// The technologies, fuels or emissions, and years of a region where it isn't 0 in some mode, in order.
pub(crate) fn cells_of_some_mode(
    alloc: Global,
    model: &ModelData,
    ratio: ActivityRatio,
    region: u16,
) -> Result<Vec<Index>, AllocError>
    requires { region < count_of model.now.facts sets.region }
    ensures { IfOk result (λ cells. cells.items ≡ cells_of_some_mode model.now.facts ratio region) }
{
    let in_modes = cells_of_ratio(alloc, model, ratio, region)?;
    let mut cells = without_modes(alloc, &in_modes)?;
    cells.sort()?;
    cells.dedup();
    Ok(cells)
}

/// The indices with 0 as their mode.
fn without_modes(alloc: Global, indices: &[Index]) -> Result<Vec<Index>, AllocError>
    ensures { IfOk result (λ cells. cells.items ≡ map (with_mode 0) indices.now) }
{
    indices
        .iter()
        .map(|index| Index { mode: 0, ..*index })
        .collect(alloc)
}
