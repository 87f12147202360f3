//! The rows of all instances, in order.

ghost use Rattle.std.specs.Prelude.{◌≡◌, ◌+◌, ◌<◌, true, IfErr, IfOk, OnOk};
ghost use Rattle.std.specs.List.{AllByRecursion};
ghost use Rattle.discount_factors.specs.Factors.{IsPlaces};
ghost use Rattle.model_sets.specs.Names as sets;
ghost use Rattle.row_core.specs.Equations.{IsEquation};
ghost use Rattle.named_equations.specs.Instances.{instances, instances_of, is_index, subscripts_of};
ghost use Rattle.named_equations.specs.Positions.{count_of};
ghost use Rattle.named_equations.specs.RegionFactors.{AreRegionFactors, places_of};
ghost use Rattle.param_tables.specs.Built.{AreComplete};
ghost use Rattle.row_book.specs.Books.{AreRowsOf, CanBeMade, HasStopped, entry_limit};
ghost use Rattle.row_book.specs.RowsAdded.{AddsRows};
ghost use Rattle.row_book.specs.Walks.{instance_at, instances_in, instances_with, joined};

use crate::cells::{cells_of, outers_of};
use crate::factors::region_factors;
use crate::fail::BookFail;
use crate::instance_row::row_of;
use crate::made_rows::MadeRows;
use discount_factors::Factors;
use model_sets::set_numbers::REGION;
use param_tables::ModelData;
use row_core::equation_numbers::EQUATION_COUNT;
use row_core::{Index, Row, RowName, Stopped};
use std::alloc::Global;

/// How many entries all rows may have together.
const ENTRY_LIMIT: usize = 4_000_000;

impl MadeRows {
    /// Adds the row of an equation at an index, if there is an instance.
    fn add(&mut self, model: &ModelData, factors: &[Factors], name: RowName) -> Result<(), BookFail>
        requires equation { IsEquation name.eq }
        requires factors { AreRegionFactors (places_of factors.now) model.now.facts factors.now }
        requires index { is_index model.now.facts (subscripts_of name.eq) name.index ≡ true }
        ensures added { OnOk result (AddsRows (places_of factors.now) model.now.facts (instance_at model.now.facts name.eq name.index) self.old self.new) }
        ensures stopped { IfErr result (HasStopped (places_of factors.now) model.now.facts self.old.entries (instance_at model.now.facts name.eq name.index)) }
    {
        let row = match row_of(self.alloc, model, factors, name) {
            Ok(Some(row)) => row,
            Ok(None) => return Ok(()),
            Err(Stopped::Width(place)) => return Err(BookFail::Width(place)),
            Err(Stopped::Memory) => return Err(BookFail::Memory),
        };
        let count = row.entries.len();
        if count > ENTRY_LIMIT - self.entries {
            return Err(BookFail::TooManyEntries);
        }
        self.rows.push(row)?;
        self.entries += count;
        Ok(())
    }

    /// Adds the rows of the instances with these outer subscripts and one of these inner ones.
    fn add_cells(
        &mut self,
        model: &ModelData,
        factors: &[Factors],
        eq: u8,
        cells: &[Index],
        outer: Index,
    ) -> Result<(), BookFail>
        requires equation { IsEquation eq }
        requires factors { AreRegionFactors (places_of factors.now) model.now.facts factors.now }
        requires indices { AllByRecursion (λ cell. is_index model.now.facts (subscripts_of eq) (joined outer cell) ≡ true) cells.now }
        ensures added { OnOk result (AddsRows (places_of factors.now) model.now.facts (instances_with model.now.facts eq cells.now outer) self.old self.new) }
        ensures stopped { IfErr result (HasStopped (places_of factors.now) model.now.facts self.old.entries (instances_with model.now.facts eq cells.now outer)) }
    {
        for cell in cells {
            let index = Index {
                other: outer.other,
                slice: outer.slice,
                ..*cell
            };
            match self.add(model, factors, RowName { eq, index }) {
                Ok(()) => {}
                Err(fail) => return Err(fail),
            }
        }
        Ok(())
    }

    /// With how many more entries the limit is passed: one more than are left.
    fn entries_to_pass(&self) -> usize
        ensures { self.now.entries + result ≡ entry_limit + 1 }
    {
        ENTRY_LIMIT - self.entries + 1
    }

    /// Adds the rows of an equation in a region.
    fn add_region(
        &mut self,
        model: &ModelData,
        factors: &[Factors],
        eq: u8,
        region: u16,
    ) -> Result<(), BookFail>
        requires equation { IsEquation eq }
        requires factors { AreRegionFactors (places_of factors.now) model.now.facts factors.now }
        requires region { region < count_of model.now.facts sets.region }
        ensures added { OnOk result (AddsRows (places_of factors.now) model.now.facts (instances_in model.now.facts eq region) self.old self.new) }
        ensures stopped { IfErr result (HasStopped (places_of factors.now) model.now.facts self.old.entries (instances_in model.now.facts eq region)) }
    {
        // With so many cells the rows of the first outer subscripts pass the limit.
        let most = self.entries_to_pass();
        let cells = cells_of(self.alloc, model, eq, region, most)?;
        let outers = outers_of(self.alloc, model, eq, region)?;
        for outer in &outers {
            match self.add_cells(model, factors, eq, &cells, *outer) {
                Ok(()) => {}
                Err(fail) => return Err(fail),
            }
        }
        Ok(())
    }

    /// Adds the rows of an equation.
    pub(crate) fn add_equation(
        &mut self,
        model: &ModelData,
        factors: &[Factors],
        eq: u8,
    ) -> Result<(), BookFail>
        requires equation { IsEquation eq }
        requires factors { AreRegionFactors (places_of factors.now) model.now.facts factors.now }
        ensures added { OnOk result (AddsRows (places_of factors.now) model.now.facts (instances_of model.now.facts eq) self.old self.new) }
        ensures stopped { IfErr result (HasStopped (places_of factors.now) model.now.facts self.old.entries (instances_of model.now.facts eq)) }
    {
        for region in 0..model.sets().count(REGION) {
            match self.add_region(model, factors, eq, region) {
                Ok(()) => {}
                Err(fail) => return Err(fail),
            }
        }
        Ok(())
    }

    /// Adds the rows of all equations.
    fn add_equations(&mut self, model: &ModelData, factors: &[Factors]) -> Result<(), BookFail>
        requires { AreRegionFactors (places_of factors.now) model.now.facts factors.now }
        ensures added { OnOk result (AddsRows (places_of factors.now) model.now.facts (instances model.now.facts) self.old self.new) }
        ensures stopped { IfErr result (HasStopped (places_of factors.now) model.now.facts self.old.entries (instances model.now.facts)) }
    {
        for eq in 1..EQUATION_COUNT as u8 + 1 {
            match self.add_equation(model, factors, eq) {
                Ok(()) => {}
                Err(fail) => return Err(fail),
            }
        }
        Ok(())
    }
}

/// The row of each instance, in order, with written factors of 6 or 9 decimal places.
pub(crate) fn all_rows(alloc: Global, model: &ModelData, places: u8) -> Result<Vec<Row>, BookFail>
    requires places { IsPlaces places }
    ensures rows { IfOk result (λ rows. AreRowsOf places model.now.facts (instances model.now.facts) rows.items) }
    ensures made { OnOk result (CanBeMade places model.now.facts 0 (instances model.now.facts)) }
    ensures stopped { IfErr result (HasStopped places model.now.facts 0 (instances model.now.facts)) }
    ensures complete { AreComplete model.now.facts }
{
    let factors = region_factors(alloc, model, places)?;
    let mut rows = MadeRows {
        alloc,
        rows: Vec::new(alloc),
        entries: 0,
    };
    match rows.add_equations(model, &factors) {
        Ok(()) => Ok(rows.rows),
        Err(fail) => Err(fail),
    }
}
