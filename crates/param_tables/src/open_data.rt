//! Checked data that are open to changes.

ghost use Rattle.std.specs.Prelude.{◌≡◌, ◌+◌, [], IfErr, IfOk, OnErr, OnOk};
ghost use Rattle.param_tables.specs.Built.{AreComplete};
ghost use Rattle.param_tables.specs.ChangeTold.{IsBuiltByChange, IsChangeFailDue, IsChangeOf, IsLeftBy, change_told};
ghost use Rattle.param_tables.specs.Changes.{change_refusals};
ghost use Rattle.param_tables.specs.InTurn.{first_of};
ghost use Rattle.param_tables.specs.OpenTables.{AreClosed, AreOpened};

use crate::change::Change;
use crate::changed_table::puts_for;
use crate::fault::ChangeFail;
use crate::model_data::ModelData;
use crate::open_table::OpenTable;
use crate::param_table::ParamTable;
use crate::ratio_places::AllRatioPlaces;
use model_sets::Sets;
use std::alloc::{AllocError, Global};
use std::marker::Model;

/// The data of a model, of which values can be changed one change after another. Each change costs what it
/// names, a search of each place apart, and nothing of it is copied.
#[derive(Drop)]
pub struct OpenData {
    sets: Sets,
    tables: Vec<OpenTable>,
    second: bool,
    rounded: u64,
}

impl Model for OpenData {
    ghost use Rattle.param_tables.specs.Built.{Built};

    ghost Value = { Built };

    ghost use Rattle.param_tables.specs.OpenTables.{AreOpen, facts_opened};

    ghost view = { λ o. record { facts = facts_opened o.sets o.tables.items o.second; rounded = o.rounded } };

    ghost invariant = { λ o. AreOpen o.sets o.tables.items o.second };
}

/// The tables, open to changes.
fn opened_tables(alloc: Global, tables: Vec<ParamTable>) -> Result<Vec<OpenTable>, AllocError>
    ensures { IfOk result (λ opened. AreOpened tables.items opened.items) }
{
    let mut opened = Vec::with_capacity(alloc, tables.len())?;
    for table in tables {
        opened.push(OpenTable::new(alloc, table))?;
    }
    Ok(opened)
}

/// The tables with what was added.
fn closed_tables(alloc: Global, opened: Vec<OpenTable>) -> Result<Vec<ParamTable>, AllocError>
    ensures { IfOk result (λ tables. AreClosed opened.items tables.items) }
{
    let mut tables = Vec::with_capacity(alloc, opened.len())?;
    for table in opened {
        tables.push(table.close(alloc)?)?;
    }
    Ok(tables)
}

impl OpenData {
    /// The data, open to changes. It may run out of memory.
    pub fn new(alloc: Global, model: ModelData) -> Result<OpenData, AllocError>
        ensures same { IfOk result (λ opened. opened ≡ model) }
        ensures complete { IfOk result (λ opened. AreComplete opened.facts) }
    {
        let parts = model.into_parts();
        let tables = opened_tables(alloc, parts.tables)?;
        Ok(OpenData {
            sets: parts.sets,
            tables,
            second: parts.second,
            rounded: parts.rounded,
        })
    }

    /// The sets.
    pub fn sets(&self) -> &Sets
        ensures sets { result.now ≡ self.now.facts.sets }
        ensures complete { AreComplete self.now.facts }
    {
        &self.sets
    }

    /// Whether the text has a statement for DiscountRateIdv, so that DiscountRateIdv is a parameter of the data.
    pub fn second(&self) -> bool
        ensures { result ≡ self.now.facts.second }
    {
        self.second
    }

    /// Counts one more number that was rounded when it was read. Refused as for want of memory where the count would no
    /// longer fit, and then nothing is changed.
    pub fn count_rounded(&mut self) -> Result<(), AllocError>
        ensures facts { self.new.facts ≡ self.old.facts }
        ensures counted { OnOk result (self.new.rounded ≡ self.old.rounded + 1) }
        ensures unchanged { OnErr result (self.new ≡ self.old) }
    {
        let Some(rounded) = self.rounded.checked_add(1) else {
            return Err(AllocError);
        };
        self.rounded = rounded;
        Ok(())
    }

    /// Changes the values that the change names: at each index of its parameter of which it names each member.
    ///
    /// Refuses the first of these indices, in the order of the members with the last subscript running fastest, at
    /// which the changed value lies outside the parameter's range, or outside those from -10^24 to 10^24
    /// (`OutOfRange`), with the parameter and the index, and then changes nothing. It may run out of memory at any
    /// time, and then some of the values may have been changed.
    pub fn apply(&mut self, alloc: Global, change: &Change) -> Result<(), ChangeFail>
        requires { IsChangeOf self.old.facts change.now }
        ensures changed { OnOk result (IsBuiltByChange (change_told self.old.facts.sets change.now) self.old self.new) }
        ensures complete { AreComplete self.new.facts }
        ensures accepted { OnOk result (change_refusals self.old.facts (change_told self.old.facts.sets change.now) ≡ []) }
        ensures refused { IfErr result (IsChangeFailDue (first_of (change_refusals self.old.facts (change_told self.old.facts.sets change.now))) self.old.facts.sets) }
        ensures unchanged { IfErr result (IsLeftBy self.old self.new) }
    {
        let at = usize::from(change.param - 1);
        let puts = puts_for(alloc, &self.sets, &self.tables[at], change)?;
        let Some(rounded) = self.rounded.checked_add(puts.rounded) else {
            return Err(ChangeFail::Memory);
        };
        self.tables[at].put_all(puts.values.as_slice())?;
        self.rounded = rounded;
        Ok(())
    }

    /// The data, closed to changes. It may run out of memory. Time is in proportion to what is given, a sort of
    /// the ratios and of the parameters apart to which values were added.
    pub fn close(self, alloc: Global) -> Result<ModelData, AllocError>
        ensures same { IfOk result (λ model. model ≡ self) }
        ensures complete { IfOk result (λ model. AreComplete model.facts) }
    {
        let OpenData {
            sets,
            tables,
            second,
            rounded,
        } = self;
        let tables = closed_tables(alloc, tables)?;
        let ratios = AllRatioPlaces::new(alloc, &sets, tables.as_slice())?;
        Ok(ModelData::new(sets, tables, second, ratios, rounded))
    }
}
