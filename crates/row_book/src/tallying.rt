//! What a first pass through all rows finds of them: how many stand before each equation, which kinds each equation
//! has, and the variables. It holds rows that are worth it.

ghost use Rattle.std.specs.Prelude.{◌≡◌, ℕ, ◌≤◌, ◌<◌, ◌+◌, ◌-◌, ◌&&◌, nat_eq, map, length, false, IfErr, IfOk, OnOk};
ghost use Rattle.std.specs.List.{AllByRecursion};
ghost use Rattle.model_sets.specs.Data.{Data};
ghost use Rattle.row_core.specs.declared.equation_numbers.TheConstants.{EQUATION_COUNT};
ghost use Rattle.row_core.specs.Equations.{IsEquation};
ghost use Rattle.row_core.specs.Contents.{contents_of};
ghost use Rattle.row_core.specs.Sources.{has_entry_of, has_kind};
ghost use Rattle.named_equations.specs.Instances.{instances, instances_of};
ghost use Rattle.named_equations.specs.RegionFactors.{AreRegionFactors, places_of};
ghost use Rattle.row_book.specs.Books.{HasStopped};
ghost use Rattle.row_book.specs.Tallies.{AreTallied, Counts, MarksMore, TalliesMore, marked, table_room};

use crate::fail::BookFail;
use crate::held_rows::keep_rows;
use crate::made_rows::MadeRows;
use crate::tally::Tally;
use discount_factors::Factors;
use param_tables::ModelData;
use row_core::Row;
use row_core::equation_numbers::EQUATION_COUNT;
use std::alloc::{AllocError, Global};

/// How many kinds the table of kinds has room for at each equation.
const KIND_ROOM: usize = 256;

/// How much room the table has, for each equation's number.
const TABLE_ROOM: usize = KIND_ROOM * (EQUATION_COUNT + 1);

impl Tally {
    /// Before any row.
    pub(crate) fn new(alloc: Global) -> Result<Tally, AllocError>
        ensures { IfOk result (λ tally. (places : ℕ) (d : Data) → AreTallied places d 0 tally) }
    {
        let kinds = vec![in alloc; false; TABLE_ROOM]?;
        Ok(Tally {
            rows: 0,
            entries: 0,
            before: Vec::new(alloc),
            kinds,
            held: Vec::new(alloc),
            vars: Vec::new(alloc),
        })
    }

    /// Makes the rows of all equations, each once, equation by equation. Some are held, and the others let go again.
    pub(crate) fn add_equations(
        &mut self,
        alloc: Global,
        model: &ModelData,
        factors: &[Factors],
    ) -> Result<(), BookFail>
        requires factors { AreRegionFactors (places_of factors.now) model.now.facts factors.now }
        requires none { AreTallied (places_of factors.now) model.now.facts 0 self.old }
        ensures tallied { OnOk result (AreTallied (places_of factors.now) model.now.facts EQUATION_COUNT self.new) }
        ensures stopped { IfErr result (HasStopped (places_of factors.now) model.now.facts 0 (instances model.now.facts)) }
    {
        for eq in 1..EQUATION_COUNT as u8 + 1 {
            match self.add_equation(alloc, model, factors, eq) {
                Ok(()) => {}
                Err(fail) => return Err(fail),
            }
        }
        Ok(())
    }

    /// Makes the rows of an equation, looks at them, and holds them or gathers their variables.
    fn add_equation(
        &mut self,
        alloc: Global,
        model: &ModelData,
        factors: &[Factors],
        eq: u8,
    ) -> Result<(), BookFail>
        requires equation { IsEquation eq }
        requires factors { AreRegionFactors (places_of factors.now) model.now.facts factors.now }
        requires long { length self.old.kinds.items ≡ table_room }
        ensures more { OnOk result (TalliesMore (places_of factors.now) model.now.facts eq self.old self.new) }
        ensures stopped { IfErr result (HasStopped (places_of factors.now) model.now.facts self.old.entries (instances_of model.now.facts eq)) }
    {
        let mut made = MadeRows {
            alloc,
            rows: Vec::new(alloc),
            entries: self.entries,
        };
        match made.add_equation(model, factors, eq) {
            Ok(()) => {}
            Err(fail) => return Err(fail),
        }
        self.before.push(self.rows)?;
        match self.add_rows(&made.rows) {
            Ok(()) => {}
            Err(_) => return Err(BookFail::Memory),
        }
        let entries = made.entries;
        let own = entries - self.entries;
        self.entries = entries;
        match keep_rows(&mut self.held, &mut self.vars, eq, made.rows, own, entries) {
            Ok(()) => Ok(()),
            Err(_) => Err(BookFail::Memory),
        }
    }

    /// Looks at rows.
    fn add_rows(&mut self, rows: &[Row]) -> Result<(), AllocError>
        requires long { length self.old.kinds.items ≡ table_room }
        requires equations { AllByRecursion (λ row. row.name.eq ≤ EQUATION_COUNT) rows.now }
        ensures counts { OnOk result (Counts rows.now self.old self.new) }
        ensures before { OnOk result (self.new.before ≡ self.old.before) }
        ensures entries { OnOk result (self.new.entries ≡ self.old.entries) }
        ensures held { OnOk result (self.new.held ≡ self.old.held) }
        ensures vars { OnOk result (self.new.vars ≡ self.old.vars) }
    {
        self.rows = match self.rows.checked_add(rows.len() as u64) {
            Some(number) => number,
            None => return Err(AllocError),
        };
        mark_rows(&mut self.kinds, rows);
        Ok(())
    }
}

/// Marks the kinds of the entries of rows.
fn mark_rows(kinds: &mut Vec<bool>, rows: &[Row])
    requires long { length kinds.old.items ≡ table_room }
    requires equations { AllByRecursion (λ row. row.name.eq ≤ EQUATION_COUNT) rows.now }
    ensures { MarksMore kinds.old.items kinds.new.items (λ eq kind. has_kind eq kind (map contents_of rows.now)) }
{
    for row in rows {
        mark_row(kinds, row);
    }
}

/// Marks those of a row.
fn mark_row(kinds: &mut Vec<bool>, row: &Row)
    requires long { length kinds.old.items ≡ table_room }
    requires equation { row.now.name.eq ≤ EQUATION_COUNT }
    ensures { MarksMore kinds.old.items kinds.new.items (λ eq kind. nat_eq row.now.name.eq eq && has_entry_of kind (contents_of row.now)) }
{
    for (var, _) in row.entries.as_slice() {
        mark(kinds, row.name.eq, var.kind);
    }
}

/// Marks a kind.
fn mark(kinds: &mut Vec<bool>, eq: u8, kind: u8)
    requires long { length kinds.old.items ≡ table_room }
    requires equation { eq ≤ EQUATION_COUNT }
    ensures { MarksMore kinds.old.items kinds.new.items (λ e k. nat_eq eq e && nat_eq kind k) }
{
    kinds[eq as usize * KIND_ROOM + kind as usize] = true;
}

/// The kind is marked.
pub(crate) fn is_marked(kinds: &[bool], eq: u8, kind: u8) -> bool
    requires long { length kinds.now ≡ table_room }
    requires equation { eq ≤ EQUATION_COUNT }
    ensures { result ≡ marked kinds.now eq kind }
{
    kinds[eq as usize * KIND_ROOM + kind as usize]
}
