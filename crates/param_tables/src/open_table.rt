//! The table of one parameter, open to changes.

ghost use Rattle.std.specs.Prelude.{◌≡◌, ℕ, None, Some, length, nat_eq, IfErr, IfOk, OnErr, OnOk, if◌then◌else◌};
ghost use Rattle.std.specs.BTreeMap.{get};
ghost use Rattle.std.specs.List.Sorted.{IsStrictlyIncreasing};
ghost use Rattle.std.specs.Ordering.{nat_cmp};
ghost use Rattle.param_tables.specs.OpenTables.{ArePut, IsClosedTable, KeepsShape, MayBePut, given_open, open_value};

use crate::given::keep;
use crate::param_table::{ParamTable, value_else};
use std::alloc::{AllocError, Global};
use std::collections::BTreeMap;

/// The table of a parameter, with the values, in billionths, that are given at places which it doesn't have.
#[derive(Drop)]
pub(crate) struct OpenTable {
    pub(crate) table: ParamTable,
    pub(crate) added: BTreeMap<u64, i128>,
}

impl OpenTable {
    /// The table as it is.
    pub(crate) fn new(alloc: Global, table: ParamTable) -> OpenTable
        ensures table { result.table ≡ table }
        ensures none { (place : ℕ) → get nat_cmp result.added place ≡ None }
    {
        OpenTable {
            table,
            added: BTreeMap::new(alloc),
        }
    }

    /// The value given at the place.
    fn given_at(&self, place: u64) -> Option<i128>
        requires ascending { IsStrictlyIncreasing self.now.table.places.items }
        requires long { length self.now.table.values.items ≡ length self.now.table.places.items }
        ensures { result ≡ given_open self.now place }
    {
        match self.table.given_at(place) {
            Some(value) => Some(value),
            None => self.added.get(&place).copied(),
        }
    }

    /// The value of the parameter at the place: the one given, else that of an index without one.
    pub(crate) fn value_at(&self, param: u8, place: u64) -> Option<i128>
        requires ascending { IsStrictlyIncreasing self.now.table.places.items }
        requires long { length self.now.table.values.items ≡ length self.now.table.places.items }
        ensures { result ≡ open_value param self.now place }
    {
        match self.given_at(place) {
            Some(value) => Some(value),
            None => value_else(param, self.table.default),
        }
    }

    /// Gives the value, in billionths, at the place. Where it runs out of memory, nothing is changed.
    fn put(&mut self, place: u64, value: i128) -> Result<(), AllocError>
        requires ascending { IsStrictlyIncreasing self.old.table.places.items }
        requires long { length self.old.table.values.items ≡ length self.old.table.places.items }
        ensures shape { KeepsShape self.old self.new }
        ensures put { OnOk result ((q : ℕ) → given_open self.new q ≡ (if nat_eq q place then Some value else given_open self.old q)) }
        ensures unchanged { OnErr result ((q : ℕ) → given_open self.new q ≡ given_open self.old q) }
    {
        if self.table.replace(place, value) {
            return Ok(());
        }
        keep(&mut self.added, place, &value)
    }

    /// Gives each value, in billionths, at its place; where a place stands twice, the first value. It may run
    /// out of memory, and then some of the last values are given.
    pub(crate) fn put_all(&mut self, puts: &[(u64, i128)]) -> Result<(), AllocError>
        requires ascending { IsStrictlyIncreasing self.old.table.places.items }
        requires long { length self.old.table.values.items ≡ length self.old.table.places.items }
        ensures shape { KeepsShape self.old self.new }
        ensures put { OnOk result (ArePut puts.now self.old self.new) }
        ensures some { MayBePut puts.now self.old self.new }
    {
        let mut i = puts.len();
        while i > 0 {
            i -= 1;
            let (place, value) = puts[i];
            self.put(place, value)?;
        }
        Ok(())
    }

    /// The table with the values that were added. It may run out of memory. Where none were, it is the table as
    /// it is.
    pub(crate) fn close(self, alloc: Global) -> Result<ParamTable, AllocError>
        ensures { IfOk result (IsClosedTable self) }
    {
        let OpenTable { table, mut added } = self;
        if added.is_empty() {
            return Ok(table);
        }
        table.fill(&mut added)?;
        ParamTable::new(alloc, table.default, added)
    }
}
