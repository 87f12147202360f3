//! The modes, technologies and indices at which a value of a ratio is given that isn't 0, found among the
//! places that are kept.

ghost use Rattle.std.specs.Prelude.{◌+◌, ◌*◌, ◌^◌, ◌<◌, IfOk};
ghost use Rattle.std.specs.List.Sorted.{IsStrictlyIncreasing};
ghost use Rattle.param_tables.specs.RatioPlaces.{AreBlocks, AreIndicesAt, AreSmall, group_of, group_size, region_size};

use crate::place_search::{blocks_with_place, part_between};
use crate::ratio_sizes::RatioSizes;
use crate::ratios::RatioIndex;
use std::alloc::{AllocError, Global};

/// The modes of a technology in the group of its region, commodity and year.
pub(crate) fn listed_modes(
    alloc: Global,
    sizes: RatioSizes,
    grouped: &[u64],
    group: u64,
    technology: u16,
) -> Result<Vec<u16>, AllocError>
    requires rising { IsStrictlyIncreasing grouped.now }
    requires small { AreSmall sizes }
    requires group { group < 10 ^ 9 }
    requires technology { technology < sizes.technologies }
    ensures { IfOk result (λ modes. AreBlocks grouped.now (group * group_size sizes + technology * sizes.modes) 1 sizes.modes modes.items) }
{
    let start = group * sizes.group_size() + u64::from(technology) * u64::from(sizes.modes);
    blocks_with_place(alloc, grouped, start, 1, sizes.modes)
}

/// The technologies in the group of a region, commodity and year.
pub(crate) fn listed_technologies(
    alloc: Global,
    sizes: RatioSizes,
    grouped: &[u64],
    group: u64,
) -> Result<Vec<u16>, AllocError>
    requires rising { IsStrictlyIncreasing grouped.now }
    requires small { AreSmall sizes }
    requires group { group < 10 ^ 9 }
    ensures { IfOk result (λ technologies. AreBlocks grouped.now (group * group_size sizes) sizes.modes sizes.technologies technologies.items) }
{
    let start = group * sizes.group_size();
    blocks_with_place(
        alloc,
        grouped,
        start,
        u64::from(sizes.modes),
        sizes.technologies,
    )
}

/// The indices of a region.
pub(crate) fn listed_indices(
    alloc: Global,
    sizes: RatioSizes,
    in_order: &[u64],
    region: u16,
) -> Result<Vec<RatioIndex>, AllocError>
    requires rising { IsStrictlyIncreasing in_order.now }
    requires small { AreSmall sizes }
    requires region { region < 1000 }
    ensures { IfOk result (λ indices. AreIndicesAt sizes in_order.now (region * region_size sizes) indices.items) }
{
    let size = sizes.region_size();
    let start = u64::from(region) * size;
    let part = part_between(in_order, start, start + size);
    let mut indices = Vec::with_capacity(alloc, part.len())?;
    for place in part {
        indices.push(sizes.index_at(*place - start))?;
    }
    Ok(indices)
}
