//! The checked data of a model.

ghost use Rattle.std.specs.Prelude.{◌≡◌, unwrap_or, pos, take, IfOk, IfSome, IsSomeAnd};
ghost use Rattle.exact_num.specs.Rational.{lowest};
ghost use Rattle.exact_num.specs.Value.{value_of};
ghost use Rattle.model_sets.specs.Data.{IsUsedParam, value_at};
ghost use Rattle.model_sets.specs.Params.{range_of};
ghost use Rattle.param_tables.specs.Built.{AreComplete, IsValueIn, amount_at, is_given};
ghost use Rattle.param_tables.specs.Changed.{IsBuiltWith};
ghost use Rattle.param_tables.specs.Positions.{IsIndexOf, names_at};
ghost use Rattle.param_tables.specs.Ranges.{billion};
ghost use Rattle.param_tables.specs.RatioPlaces.{AreKeptWith, IsWithin, ratio_sizes};
ghost use Rattle.param_tables.specs.Ratios.{AreMembersFor, IsRegion, IsTechnology, is_nonzero_in, nonzero_indices, nonzero_modes, nonzero_technologies};
ghost use Rattle.param_tables.specs.View.{AreKept, facts_of};
ghost use Rattle.mathprog_data.specs.WellFormed.{IsWithinLimit};

use crate::changed::{PlacedValue, changed_parts};
use crate::indices::place_of;
use crate::listed::{listed_indices, listed_modes, listed_technologies};
use crate::param_table::{ParamTable, is_nonzero, value_else};
use crate::ratio_places::AllRatioPlaces;
use crate::ratio_sizes::RatioSizes;
use crate::ratios::{ActivityRatio, RatioIndex};
use crate::tried::{tried_indices, tried_modes, tried_technologies};
use exact_num::{Frac, ratio};
use model_sets::{Sets, subscript_sets};
use std::alloc::{AllocError, Global};
use std::marker::Model;

/// One, in billionths.
const BILLION: i128 = 1_000_000_000;

/// The data of a model: the members of its sets, and a value in its range for each used parameter at each
/// of its indices: the value given, else the default, else 0 for CapacityOfOneTechnologyUnit. Of each parameter
/// the default is kept and the values given, in the order of the members.
#[derive(Drop)]
pub struct ModelData {
    sets: Sets,
    tables: Vec<ParamTable>,
    second: bool,
    ratios: AllRatioPlaces,
    rounded: u64,
}

impl Model for ModelData {
    ghost use Rattle.param_tables.specs.Built.{Built};
    ghost use Rattle.param_tables.specs.RatioPlaces.{AreKeptWith};
    ghost use Rattle.param_tables.specs.View.{facts_of};

    ghost Value = { Built };

    ghost view = { λ model. record { facts = facts_of model.sets model.tables.items model.second; rounded = model.rounded } };

    ghost invariant = { λ model. AreKeptWith model.sets model.tables.items model.second model.ratios };
}

/// The sets of the data, the tables of their parameters, and what is known of the text.
#[derive(Drop)]
pub(crate) struct DataParts {
    pub(crate) sets: Sets,
    pub(crate) tables: Vec<ParamTable>,
    pub(crate) second: bool,
    pub(crate) rounded: u64,
}

/// The value, which is given in billionths.
fn amount(value: Option<i128>) -> Frac
    requires { IfSome value IsWithinLimit }
    ensures { value_of result ≡ lowest (unwrap_or value (pos 0)) (pos billion) }
{
    let value = value.unwrap_or(0);
    if 0 <= value && value < 1 << 63 {
        narrow_amount(value as u64)
    } else {
        ratio(value, BILLION)
    }
}

/// A value of so many billionths. Most are whole numbers or have four decimal places at most: over the smaller
/// denominator, 64 bits and few steps give the lowest terms.
fn narrow_amount(billionths: u64) -> Frac
    ensures { value_of result ≡ lowest (pos billionths) (pos billion) }
{
    if billionths % 1_000_000_000 == 0 {
        ratio(i128::from(billionths / 1_000_000_000), 1)
    } else if billionths % 100_000 == 0 {
        ratio(i128::from(billionths / 100_000), 10_000)
    } else {
        ratio(i128::from(billionths), BILLION)
    }
}

impl ModelData {
    /// The data of these sets and these tables, with the places at which their ratios aren't 0, and whether
    /// the text has a statement for DiscountRateIdv.
    pub(crate) fn new(
        sets: Sets,
        tables: Vec<ParamTable>,
        second: bool,
        ratios: AllRatioPlaces,
        rounded: u64,
    ) -> ModelData
        requires { AreKeptWith sets tables.items second ratios }
        ensures facts { result.facts ≡ facts_of sets tables.items second }
        ensures rounded { result.rounded ≡ rounded }
    {
        ModelData {
            sets,
            tables,
            second,
            ratios,
            rounded,
        }
    }

    /// The parts of the data, without the places at which the ratios aren't 0.
    pub(crate) fn into_parts(self) -> DataParts
        ensures facts { facts_of result.sets result.tables.items result.second ≡ self.facts }
        ensures rounded { result.rounded ≡ self.rounded }
        ensures kept { AreKept result.sets result.tables.items result.second }
    {
        let ModelData {
            sets,
            tables,
            second,
            ratios: _,
            rounded,
        } = self;
        DataParts {
            sets,
            tables,
            second,
            rounded,
        }
    }

    /// The value of the used parameter at the index, in billionths.
    fn value(&self, param: u8, index: &[u16]) -> Option<i128>
        requires used { IsUsedParam self.now.facts param }
        requires index { IsIndexOf self.now.facts.sets param index.now }
        ensures value { result ≡ value_at self.now.facts param (names_at self.now.facts.sets param index.now) }
        ensures given { IsSomeAnd result (IsValueIn (range_of param)) }
    {
        let table = &self.tables[usize::from(param - 1)];
        // Many parameters are given by their default alone: then the place isn't reckoned.
        if table.places.as_slice().is_empty() {
            return value_else(param, table.default);
        }
        let place = place_of(&self.sets, subscript_sets(param), index);
        table.value_at(param, place)
    }

    /// The value of the used parameter at the index, which has one position for each
    /// subscript, below the number of members of its set. The value is a fraction in lowest terms.
    pub fn at(&self, param: u8, index: &[u16]) -> Frac
        requires used { IsUsedParam self.now.facts param }
        requires index { IsIndexOf self.now.facts.sets param index.now }
        ensures amount { value_of result ≡ amount_at self.now.facts param index.now }
        ensures given { IsSomeAnd (value_at self.now.facts param (names_at self.now.facts.sets param index.now)) (IsValueIn (range_of param)) }
    {
        amount(self.value(param, index))
    }

    /// Whether the value of the used parameter at the index, which is as that of `at`, is one that a statement of the text gives;
    /// where not, it is the parameter's default, or 0 for CapacityOfOneTechnologyUnit.
    pub fn is_given(&self, param: u8, index: &[u16]) -> bool
        requires used { IsUsedParam self.now.facts param }
        requires index { IsIndexOf self.now.facts.sets param index.now }
        ensures { result ≡ is_given self.now.facts param (names_at self.now.facts.sets param index.now) }
    {
        let place = place_of(&self.sets, subscript_sets(param), index);
        self.tables[usize::from(param - 1)].is_given_at(place)
    }

    /// The data with this value of the used parameter at the index, and else as they are: the same sets, the same value of each used
    /// parameter at each other index, and the same number of rounded numbers. The value is in billionths, lies in the parameter's
    /// range, and is from -10^24 to 10^24. It may run out of memory. What is kept is copied: time and memory are in proportion to
    /// the members and the values that are given, a sort of those of the ratios and of the parameter apart.
    pub fn with_value(
        &self,
        alloc: Global,
        param: u8,
        index: &[u16],
        value: i128,
    ) -> Result<ModelData, AllocError>
        requires used { IsUsedParam self.now.facts param }
        requires index { IsIndexOf self.now.facts.sets param index.now }
        requires value { IsValueIn (range_of param) value }
        ensures changed { IfOk result (IsBuiltWith param (names_at self.now.facts.sets param index.now) value self.now) }
        ensures complete { IfOk result (λ model. AreComplete model.facts) }
    {
        let place = place_of(&self.sets, subscript_sets(param), index);
        let change = PlacedValue {
            param,
            place,
            value,
        };
        let parts = changed_parts(
            alloc,
            &self.sets,
            self.tables.as_slice(),
            self.second,
            change,
        )?;
        Ok(ModelData::new(
            parts.sets,
            parts.tables,
            self.second,
            parts.ratios,
            self.rounded,
        ))
    }

    /// Whether the ratio isn't 0 at the index of the region.
    pub(crate) fn is_ratio_nonzero(
        &self,
        ratio: ActivityRatio,
        region: u16,
        index: RatioIndex,
    ) -> bool
        requires region { IsRegion self.now.facts.sets region }
        requires index { IsWithin (ratio_sizes self.now.facts.sets ratio) index.technology index.commodity index.mode index.year }
        ensures { result ≡ is_nonzero_in self.now.facts ratio region index }
    {
        let positions = [
            region,
            index.technology,
            index.commodity,
            index.mode,
            index.year,
        ];
        is_nonzero(self.value(ratio.param(), &positions))
    }

    /// The modes, ascending, in which the ratio isn't 0 for the technology, the fuel or emission and the
    /// year in the region, all by their positions. It may run out of memory. Where the ratio's default is 0, the
    /// time is in proportion to what is listed, beside a search; else each mode is tried.
    pub fn nonzero_modes(
        &self,
        alloc: Global,
        ratio: ActivityRatio,
        region: u16,
        technology: u16,
        commodity: u16,
        year: u16,
    ) -> Result<Vec<u16>, AllocError>
        requires members { AreMembersFor self.now.facts.sets ratio region commodity year }
        requires technology { IsTechnology self.now.facts.sets technology }
        ensures { IfOk result (λ modes. modes.items ≡ nonzero_modes self.now.facts ratio region technology commodity year) }
    {
        if is_nonzero(self.tables[usize::from(ratio.param() - 1)].default) {
            return tried_modes(alloc, self, ratio, region, technology, commodity, year);
        }
        let sizes = RatioSizes::new(&self.sets, ratio);
        let group = sizes.group_of(u64::from(region), commodity, year);
        let places = self.ratios.of(ratio);
        listed_modes(alloc, sizes, places.grouped.as_slice(), group, technology)
    }

    /// The technologies, ascending, that have a mode in which the ratio isn't 0 for the fuel or emission and
    /// the year in the region, all by their positions. It may run out of memory. Where the ratio's default is 0,
    /// the time is in proportion to the modes of the technologies listed, beside a search; else each
    /// technology and mode is tried.
    pub fn nonzero_technologies(
        &self,
        alloc: Global,
        ratio: ActivityRatio,
        region: u16,
        commodity: u16,
        year: u16,
    ) -> Result<Vec<u16>, AllocError>
        requires { AreMembersFor self.now.facts.sets ratio region commodity year }
        ensures { IfOk result (λ technologies. technologies.items ≡ nonzero_technologies self.now.facts ratio region commodity year) }
    {
        if is_nonzero(self.tables[usize::from(ratio.param() - 1)].default) {
            return tried_technologies(alloc, self, ratio, region, commodity, year);
        }
        let sizes = RatioSizes::new(&self.sets, ratio);
        let group = sizes.group_of(u64::from(region), commodity, year);
        let places = self.ratios.of(ratio);
        listed_technologies(alloc, sizes, places.grouped.as_slice(), group)
    }

    /// The indices of the region at which the ratio isn't 0, in the order of technology, fuel or emission,
    /// mode and year, each set's members in their own order. It may run out of memory. Where the ratio's default
    /// is 0, the time is in proportion to what is listed, beside a search; else each index is tried.
    pub fn nonzero_indices(
        &self,
        alloc: Global,
        ratio: ActivityRatio,
        region: u16,
    ) -> Result<Vec<RatioIndex>, AllocError>
        requires { IsRegion self.now.facts.sets region }
        ensures { IfOk result (λ indices. indices.items ≡ nonzero_indices self.now.facts ratio region) }
    {
        self.first_nonzero_indices(alloc, ratio, region, usize::MAX)
    }

    /// The first `most` of them, or all where there are fewer. Where the ratio's default is 0, all that are given
    /// in the region are listed on the way; else indices are tried until `most` are found.
    pub fn first_nonzero_indices(
        &self,
        alloc: Global,
        ratio: ActivityRatio,
        region: u16,
        most: usize,
    ) -> Result<Vec<RatioIndex>, AllocError>
        requires { IsRegion self.now.facts.sets region }
        ensures { IfOk result (λ indices. indices.items ≡ take most (nonzero_indices self.now.facts ratio region)) }
    {
        if is_nonzero(self.tables[usize::from(ratio.param() - 1)].default) {
            return tried_indices(alloc, self, ratio, region, most);
        }
        let sizes = RatioSizes::new(&self.sets, ratio);
        let places = self.ratios.of(ratio);
        let mut indices = listed_indices(alloc, sizes, places.in_order.as_slice(), region)?;
        indices.truncate(most);
        Ok(indices)
    }

    /// The sets.
    pub fn sets(&self) -> &Sets
        ensures sets { result.now ≡ self.now.facts.sets }
        ensures complete { AreComplete self.now.facts }
    {
        &self.sets
    }

    /// Whether the text has a statement for DiscountRateIdv, if only one without values, so that investments
    /// are spread by capital recovery. Where it has none, DiscountRateIdv is no parameter of the data.
    pub fn second(&self) -> bool
        ensures { result ≡ self.now.facts.second }
    {
        self.second
    }

    /// How many numbers of the text were rounded to billionths.
    pub fn rounded(&self) -> u64
        ensures { result ≡ self.now.rounded }
    {
        self.rounded
    }
}
