//! The places of the indices of a ratio.

ghost use Rattle.std.specs.Prelude.{◌≡◌, ◌+◌, ◌*◌, ◌^◌, ◌<◌, ◌≤◌};
ghost use Rattle.param_tables.specs.RatioPlaces.{AreSmall, IsWithin, commodity_size, group_of, group_size, grouped_place, index_at_offset, ratio_sizes, region_size, regrouped, technology_size};

use crate::ratios::{ActivityRatio, RatioIndex};
use model_sets::Sets;
use model_sets::set_numbers::{MODE_OF_OPERATION, TECHNOLOGY, YEAR};

/// How many members the sets of a ratio's index have, that of REGION aside.
#[derive(Clone, Copy)]
pub(crate) struct RatioSizes {
    pub(crate) technologies: u16,
    pub(crate) commodities: u16,
    pub(crate) modes: u16,
    pub(crate) years: u16,
}

impl RatioSizes {
    /// The sizes of the ratio's sets.
    pub(crate) fn new(sets: &Sets, ratio: ActivityRatio) -> RatioSizes
        ensures sizes { result ≡ ratio_sizes sets.now ratio }
        ensures small { AreSmall result }
    {
        RatioSizes {
            technologies: sets.count(TECHNOLOGY),
            commodities: sets.count(ratio.commodity_set()),
            modes: sets.count(MODE_OF_OPERATION),
            years: sets.count(YEAR),
        }
    }

    /// How many indices there are for one technology and commodity.
    fn commodity_size(self) -> u64
        requires { AreSmall self }
        ensures size { result ≡ commodity_size self }
        ensures most { result ≤ 10 ^ 6 }
    {
        u64::from(self.modes) * u64::from(self.years)
    }

    /// How many indices there are for one technology.
    fn technology_size(self) -> u64
        requires { AreSmall self }
        ensures size { result ≡ technology_size self }
        ensures most { result ≤ 10 ^ 9 }
    {
        u64::from(self.commodities) * self.commodity_size()
    }

    /// How many indices there are for one region.
    pub(crate) fn region_size(self) -> u64
        requires { AreSmall self }
        ensures size { result ≡ region_size self }
        ensures most { result ≤ 10 ^ 12 }
    {
        u64::from(self.technologies) * self.technology_size()
    }

    /// How many indices there are for one region, commodity and year.
    pub(crate) fn group_size(self) -> u64
        requires { AreSmall self }
        ensures size { result ≡ group_size self }
        ensures most { result ≤ 10 ^ 6 }
    {
        u64::from(self.technologies) * u64::from(self.modes)
    }

    /// The index at the place among those of a region.
    pub(crate) fn index_at(self, offset: u64) -> RatioIndex
        requires small { AreSmall self }
        requires below { offset < region_size self }
        ensures index { result ≡ index_at_offset self offset }
        ensures within { IsWithin self result.technology result.commodity result.mode result.year }
    {
        let in_technology = offset % self.technology_size();
        let in_commodity = in_technology % self.commodity_size();
        RatioIndex {
            technology: (offset / self.technology_size()) as u16,
            commodity: (in_technology / self.commodity_size()) as u16,
            mode: (in_commodity / u64::from(self.years)) as u16,
            year: (in_commodity % u64::from(self.years)) as u16,
        }
    }

    /// The number of the group of a region, commodity and year.
    pub(crate) fn group_of(self, region: u64, commodity: u16, year: u16) -> u64
        requires small { AreSmall self }
        requires region { region < 1000 }
        requires commodity { commodity < self.commodities }
        requires year { year < self.years }
        ensures group { result ≡ group_of self region commodity year }
        ensures most { result < 10 ^ 9 }
    {
        (region * u64::from(self.commodities) + u64::from(commodity)) * u64::from(self.years)
            + u64::from(year)
    }

    /// The place of the index in the order of region, commodity, year, technology and mode.
    pub(crate) fn grouped_place(self, region: u64, index: RatioIndex) -> u64
        requires small { AreSmall self }
        requires region { region < 1000 }
        requires within { IsWithin self index.technology index.commodity index.mode index.year }
        ensures { result ≡ grouped_place self region index.technology index.commodity index.mode index.year }
    {
        let in_group = u64::from(index.technology) * u64::from(self.modes) + u64::from(index.mode);
        self.group_of(region, index.commodity, index.year) * self.group_size() + in_group
    }

    /// The place of the index at the place, in the order of region, commodity, year, technology and mode.
    pub(crate) fn regrouped(self, place: u64) -> u64
        requires small { AreSmall self }
        requires below { place < 1000 * region_size self }
        ensures { result ≡ regrouped self place }
    {
        let size = self.region_size();
        let index = self.index_at(place % size);
        self.grouped_place(place / size, index)
    }
}
