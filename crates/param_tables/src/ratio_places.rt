//! The places at which a ratio isn't 0.

ghost use Rattle.std.specs.Prelude.{◌≡◌, ◌+◌, ◌*◌, ◌^◌, ◌<◌, ◌≤◌, ◌-◌, ℕ, All, length, filter, map, IfOk, slice_index_or};
ghost use Rattle.std.specs.List.Sorted.{IsStrictlyIncreasing};
ghost use Rattle.param_tables.specs.RatioPlaces.{AreAllPlaces, AreGrouped, ArePlacesOf, AreSmall, is_given_nonzero, places_of, ratio_sizes, region_size};
ghost use Rattle.param_tables.specs.Ratios.{ratio_param};
ghost use Rattle.param_tables.specs.Tables.{entries_of};
ghost use Rattle.model_sets.specs.Members.{AreSets};
ghost use Rattle.param_tables.specs.Tables.{HaveShapes};
ghost use Rattle.param_tables.specs.declared.param_table.ParamTable.{ParamTable as TableFacts};

use crate::param_table::{ParamTable, is_nonzero};
use crate::ratio_sizes::RatioSizes;
use crate::ratios::ActivityRatio;
use model_sets::Sets;
use std::alloc::{AllocError, Global};

/// The places of the indices at which a value of a ratio is given that isn't 0, ascending: in the order of
/// the index, and in the order of region, commodity, year, technology and mode, in which the technologies
/// and modes of one region, commodity and year stand side by side.
#[derive(Drop)]
pub(crate) struct RatioPlaces {
    pub(crate) in_order: Vec<u64>,
    pub(crate) grouped: Vec<u64>,
}

/// Those of the three ratios.
#[derive(Drop)]
pub(crate) struct AllRatioPlaces {
    pub(crate) input: RatioPlaces,
    pub(crate) output: RatioPlaces,
    pub(crate) emission: RatioPlaces,
}

/// The places of the table at which a value is given that isn't 0.
fn nonzero_places(alloc: Global, table: &ParamTable) -> Result<Vec<u64>, AllocError>
    requires ascending { IsStrictlyIncreasing table.now.places.items }
    requires long { length table.now.values.items ≡ length table.now.places.items }
    ensures { IfOk result (λ places. places.items ≡ filter (is_given_nonzero (entries_of table.now)) table.now.places.items) }
{
    let mut nonzero = Vec::new(alloc);
    for (i, place) in table.places.iter().enumerate() {
        if is_nonzero(table.values.get(i).copied()) {
            nonzero.push(*place)?;
        }
    }
    Ok(nonzero)
}

/// The grouped places of the indices at these places, ascending.
fn grouped_places(alloc: Global, sizes: RatioSizes, places: &[u64]) -> Result<Vec<u64>, AllocError>
    requires small { AreSmall sizes }
    requires below { All (λ place. place < 1000 * region_size sizes) places.now }
    ensures { IfOk result (λ grouped. AreGrouped sizes places.now grouped.items) }
{
    let mut grouped = Vec::with_capacity(alloc, places.len())?;
    for place in places {
        grouped.push(sizes.regrouped(*place))?;
    }
    grouped.sort_unstable();
    grouped.dedup();
    Ok(grouped)
}

impl RatioPlaces {
    /// Those of the table of a ratio.
    fn new(alloc: Global, sizes: RatioSizes, table: &ParamTable) -> Result<RatioPlaces, AllocError>
        requires small { AreSmall sizes }
        requires ascending { IsStrictlyIncreasing table.now.places.items }
        requires long { length table.now.values.items ≡ length table.now.places.items }
        requires below { All (λ place. place < 1000 * region_size sizes) table.now.places.items }
        ensures { IfOk result (ArePlacesOf sizes table.now) }
    {
        let in_order = nonzero_places(alloc, table)?;
        let grouped = grouped_places(alloc, sizes, in_order.as_slice())?;
        Ok(RatioPlaces { in_order, grouped })
    }
}

/// Those of the ratio in these tables.
fn places_in(
    alloc: Global,
    sets: &Sets,
    tables: &[ParamTable],
    ratio: ActivityRatio,
) -> Result<RatioPlaces, AllocError>
    requires sets { AreSets sets.now }
    requires shapes { HaveShapes sets.now tables.now }
    ensures { IfOk result (λ places. (e : TableFacts) → ArePlacesOf (ratio_sizes sets.now ratio) (slice_index_or tables.now (ratio_param ratio - 1) e) places) }
{
    let sizes = RatioSizes::new(sets, ratio);
    RatioPlaces::new(alloc, sizes, &tables[usize::from(ratio.param() - 1)])
}

impl AllRatioPlaces {
    /// Those of the three ratios in these tables.
    pub(crate) fn new(
        alloc: Global,
        sets: &Sets,
        tables: &[ParamTable],
    ) -> Result<AllRatioPlaces, AllocError>
        requires sets { AreSets sets.now }
        requires shapes { HaveShapes sets.now tables.now }
        ensures { IfOk result (AreAllPlaces sets.now tables.now) }
    {
        let input = places_in(alloc, sets, tables, ActivityRatio::Input)?;
        let output = places_in(alloc, sets, tables, ActivityRatio::Output)?;
        let emission = places_in(alloc, sets, tables, ActivityRatio::Emission)?;
        Ok(AllRatioPlaces {
            input,
            output,
            emission,
        })
    }

    /// Those of the ratio.
    pub(crate) fn of(&self, ratio: ActivityRatio) -> &RatioPlaces
        ensures { result.now ≡ places_of self.now ratio }
    {
        match ratio {
            ActivityRatio::Input => &self.input,
            ActivityRatio::Output => &self.output,
            ActivityRatio::Emission => &self.emission,
        }
    }
}
