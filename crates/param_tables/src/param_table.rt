//! The values of one parameter, by the places of their indices.

ghost use Rattle.std.specs.Prelude.{◌≡◌, ℕ, [], None, Some, is_some, length, nat_eq, IfOk, OnOk, if◌then◌else◌};
ghost use Rattle.std.specs.Bool.{OnFalse, OnTrue};
ghost use Rattle.std.specs.BTreeMap.{get};
ghost use Rattle.std.specs.List.Sorted.{IsBinarySearchResult, IsStrictlyIncreasing};
ghost use Rattle.std.specs.Option.{option_or};
ghost use Rattle.std.specs.Ordering.{nat_cmp};
ghost use Rattle.param_tables.specs.ChangedTables.{IsCopyOf, IsTableWith};
ghost use Rattle.param_tables.specs.RatioPlaces.{is_nonzero_value};
ghost use Rattle.param_tables.specs.Tables.{entries_of, given_in, table_value, value_else};

use crate::given::keep;
use model_sets::param_numbers::CAPACITY_OF_ONE_TECHNOLOGY_UNIT;
use std::alloc::{AllocError, Global};
use std::collections::BTreeMap;

/// What is given of a parameter: its default, and the values given, in billionths, in the order of the
/// places of their indices.
#[derive(Drop)]
pub(crate) struct ParamTable {
    pub(crate) default: Option<i128>,
    pub(crate) places: Vec<u64>,
    pub(crate) values: Vec<i128>,
}

/// The value of the parameter where none is given: the default, else 0 for CapacityOfOneTechnologyUnit.
pub(crate) fn value_else(param: u8, default: Option<i128>) -> Option<i128>
    ensures { result ≡ value_else param default }
{
    match default {
        Some(value) => Some(value),
        None if param == CAPACITY_OF_ONE_TECHNOLOGY_UNIT => Some(0),
        None => None,
    }
}

/// Whether the value isn't 0, where there is one.
pub(crate) fn is_nonzero(value: Option<i128>) -> bool
    ensures { result ≡ is_nonzero_value value }
{
    value.unwrap_or(0) != 0
}

impl ParamTable {
    /// The table of a parameter of which nothing is given.
    pub(crate) fn empty(alloc: Global) -> ParamTable
        ensures default { result.default ≡ None }
        ensures places { result.places.items ≡ [] }
        ensures values { result.values.items ≡ [] }
    {
        ParamTable {
            default: None,
            places: Vec::new(alloc),
            values: Vec::new(alloc),
        }
    }

    /// The table of these values by the places of their indices.
    pub(crate) fn new(
        alloc: Global,
        default: Option<i128>,
        given: BTreeMap<u64, i128>,
    ) -> Result<ParamTable, AllocError>
        ensures default { IfOk result (λ table. table.default ≡ default) }
        ensures ascending { IfOk result (λ table. IsStrictlyIncreasing table.places.items) }
        ensures long { IfOk result (λ table. length table.values.items ≡ length table.places.items) }
        ensures values { IfOk result (λ table. (place : ℕ) → given_in (entries_of table) place ≡ get nat_cmp given place) }
    {
        let places = given.keys().copied().collect(alloc)?;
        let values = given.into_values().collect(alloc)?;
        Ok(ParamTable {
            default,
            places,
            values,
        })
    }

    /// The table once more. It may run out of memory.
    pub(crate) fn copied(&self, alloc: Global) -> Result<ParamTable, AllocError>
        ensures { IfOk result (IsCopyOf self.now) }
    {
        let places = Vec::from_slice(alloc, self.places.as_slice())?;
        let values = Vec::from_slice(alloc, self.values.as_slice())?;
        Ok(ParamTable {
            default: self.default,
            places,
            values,
        })
    }

    /// Keeps the values given at their places.
    pub(crate) fn fill(&self, given: &mut BTreeMap<u64, i128>) -> Result<(), AllocError>
        ensures { OnOk result ((q : ℕ) → get nat_cmp given.new q ≡ option_or (given_in (entries_of self.now) q) (get nat_cmp given.old q)) }
    {
        let mut i = self.places.len().min(self.values.len());
        while i > 0 {
            i -= 1;
            keep(given, self.places[i], &self.values[i])?;
        }
        Ok(())
    }

    /// The values given, by the places of their indices.
    fn given(&self, alloc: Global) -> Result<BTreeMap<u64, i128>, AllocError>
        ensures { IfOk result (λ given. (q : ℕ) → get nat_cmp given q ≡ given_in (entries_of self.now) q) }
    {
        let mut given = BTreeMap::new(alloc);
        self.fill(&mut given)?;
        Ok(given)
    }

    /// The table with this value, in billionths, at the place. It may run out of memory.
    pub(crate) fn with_value(
        &self,
        alloc: Global,
        place: u64,
        value: i128,
    ) -> Result<ParamTable, AllocError>
        ensures { IfOk result (IsTableWith place value self.now) }
    {
        let mut given = self.given(alloc)?;
        keep(&mut given, place, &value)?;
        ParamTable::new(alloc, self.default, given)
    }

    /// The position of the place in the list of places, or where it would stand.
    fn search(&self, place: u64) -> Result<usize, usize>
        requires { IsStrictlyIncreasing self.now.places.items }
        ensures { IsBinarySearchResult (λ y. nat_cmp y place) self.now.places.items result }
    {
        // Where all values are given, each place is its own position.
        let own = place as usize;
        if own < self.places.len() && self.places[own] == place {
            return Ok(own);
        }
        self.places.binary_search(&place)
    }

    /// Puts the value, in billionths, in place of the one given at the place, and answers whether one is given there.
    pub(crate) fn replace(&mut self, place: u64, value: i128) -> bool
        requires ascending { IsStrictlyIncreasing self.old.places.items }
        requires long { length self.old.values.items ≡ length self.old.places.items }
        ensures default { self.new.default ≡ self.old.default }
        ensures places { self.new.places.items ≡ self.old.places.items }
        ensures long { length self.new.values.items ≡ length self.old.values.items }
        ensures given { result ≡ is_some (given_in (entries_of self.old) place) }
        ensures here { OnTrue result ((q : ℕ) → given_in (entries_of self.new) q ≡ (if nat_eq q place then Some value else given_in (entries_of self.old) q)) }
        ensures none { OnFalse result (self.new.values.items ≡ self.old.values.items) }
    {
        match self.search(place) {
            Ok(i) => {
                self.values[i] = value;
                true
            }
            Err(_) => false,
        }
    }

    /// The value given at the place.
    pub(crate) fn given_at(&self, place: u64) -> Option<i128>
        requires ascending { IsStrictlyIncreasing self.now.places.items }
        requires long { length self.now.values.items ≡ length self.now.places.items }
        ensures { result ≡ given_in (entries_of self.now) place }
    {
        let i = self.search(place).ok()?;
        self.values.get(i).copied()
    }

    /// Whether a value is given at the place.
    pub(crate) fn is_given_at(&self, place: u64) -> bool
        requires ascending { IsStrictlyIncreasing self.now.places.items }
        requires long { length self.now.values.items ≡ length self.now.places.items }
        ensures { result ≡ is_some (given_in (entries_of self.now) place) }
    {
        self.given_at(place).is_some()
    }

    /// The value of the parameter at the place: the one given, else that of an index without one.
    pub(crate) fn value_at(&self, param: u8, place: u64) -> Option<i128>
        requires ascending { IsStrictlyIncreasing self.now.places.items }
        requires long { length self.now.values.items ≡ length self.now.places.items }
        ensures { result ≡ table_value param self.now place }
    {
        match self.given_at(place) {
            Some(value) => Some(value),
            None => value_else(param, self.default),
        }
    }
}
