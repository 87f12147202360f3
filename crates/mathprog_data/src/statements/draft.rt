//! What was read so far.

ghost use Rattle.std.specs.Prelude.{◌≡◌, ◌+◌, ◌<◌, ◌^◌, None, Some, OnOk, nat_eq, if◌then◌else◌};
ghost use Rattle.std.specs.List.{list_any};
ghost use Rattle.mathprog_data.specs.BlocksView.{blocks_told};
ghost use Rattle.mathprog_data.specs.DraftViews.{draft_view};
ghost use Rattle.mathprog_data.specs.MachineStates.{noted, empty_draft, drafted, with_default, Draft, MemberNamed, ValueGiven, SetClosed, ParamClosed};
ghost use Rattle.mathprog_data.specs.Slices.{index_at};
ghost use Rattle.mathprog_data.specs.Tables.{given, cell_index};

use crate::blocks::{Blocks, Mark, Name, ParamBlock, SetBlock};
use crate::values::Values;
use std::alloc::{AllocError, Global};
use std::mem;

/// What was read so far: the members, the default and the values of the open statement, and the blocks of
/// those before it.
#[derive(Drop)]
pub(crate) struct Draft {
    alloc: Global,
    members: Vec<Name>,
    default: Option<i128>,
    values: Values,
    sets: Vec<SetBlock>,
    params: Vec<ParamBlock>,
    rounded: u64,
}

impl Draft {
    /// Nothing.
    pub(crate) fn new(alloc: Global) -> Draft
        ensures { draft_view result ≡ empty_draft }
    {
        Draft {
            alloc,
            members: Vec::new(alloc),
            default: None,
            values: Values::new(alloc),
            sets: Vec::new(alloc),
            params: Vec::new(alloc),
            rounded: 0,
        }
    }

    /// Whether a set was named before.
    pub(crate) fn has_set(&self, set: u8) -> bool
        ensures { result ≡ list_any (λ b. nat_eq set b.set) (draft_view self.now).sets }
    {
        for block in &self.sets {
            if block.set == set {
                return true;
            }
        }
        false
    }

    /// Whether a parameter was named before.
    pub(crate) fn has_param(&self, param: u8) -> bool
        ensures { result ≡ list_any (λ b. nat_eq param b.param) (draft_view self.now).params }
    {
        for block in &self.params {
            if block.param == param {
                return true;
            }
        }
        false
    }

    /// Adds a member to the open set.
    pub(crate) fn name_member(&mut self, name: Name) -> Result<(), AllocError>
        ensures { OnOk result (draft_view self.new ≡ noted (draft_view self.old) (MemberNamed name)) }
    {
        self.members.push(name)?;
        Ok(())
    }

    /// Counts a rounded number.
    fn count(&mut self, rounded: bool)
        requires { self.old.rounded + 1 < 2 ^ 64 }
        ensures { self.new ≡ record self.old { rounded = self.old.rounded + (if rounded then 1 else 0) } }
    {
        if rounded {
            self.rounded += 1;
        }
    }

    /// Gives the open parameter its default.
    pub(crate) fn give_default(&mut self, number: Option<(i128, bool)>)
        requires { self.old.rounded + 1 < 2 ^ 64 }
        ensures { draft_view self.new ≡ with_default (draft_view self.old) number }
    {
        if let Some((value, rounded)) = number {
            self.default = Some(value);
            self.count(rounded);
        }
    }

    /// Keeps the names of a table's columns. Answers the place of the first.
    pub(crate) fn keep_columns(&mut self, columns: &[Name]) -> Result<u32, AllocError>
        ensures { draft_view self.new ≡ draft_view self.old }
    {
        self.values.keep_names(self.alloc, columns)
    }

    /// Adds a value of plain data to the open parameter.
    #[inline(always)]
    pub(crate) fn give_plain(
        &mut self,
        slice: &[Option<Name>],
        names: &[Name],
        number: (i128, bool),
        at: Mark,
    ) -> Result<(), AllocError>
        requires { self.old.rounded + 1 < 2 ^ 64 }
        ensures { OnOk result (draft_view self.new ≡ noted (draft_view self.old) (ValueGiven (given (index_at slice.now names.now) number at))) }
    {
        self.values
            .push_plain(self.alloc, slice, names, number, at)?;
        self.count(number.1);
        Ok(())
    }

    /// Adds a value of a table to the open parameter. The name of its column may stand at the place `hint`.
    #[inline(always)]
    pub(crate) fn give_cell(
        &mut self,
        slice: &[Option<Name>],
        transposed: bool,
        row: &Name,
        column: &Name,
        hint: u32,
        number: (i128, bool),
        at: Mark,
    ) -> Result<(), AllocError>
        requires { self.old.rounded + 1 < 2 ^ 64 }
        ensures { OnOk result (draft_view self.new ≡ noted (draft_view self.old) (ValueGiven (given (cell_index slice.now transposed row.now column.now) number at))) }
    {
        self.values.push_cell(self.alloc, slice, transposed, row, column, hint, number, at)?;
        self.count(number.1);
        Ok(())
    }

    /// Closes the open statement as that of a set.
    pub(crate) fn close_set(&mut self, set: u8) -> Result<(), AllocError>
        ensures { OnOk result (draft_view self.new ≡ noted (draft_view self.old) (SetClosed set)) }
    {
        let members = mem::replace(&mut self.members, Vec::new(self.alloc));
        self.sets.push(SetBlock { set, members })?;
        Ok(())
    }

    /// Closes the open statement as that of a parameter.
    pub(crate) fn close_param(&mut self, param: u8) -> Result<(), AllocError>
        ensures { OnOk result (draft_view self.new ≡ noted (draft_view self.old) (ParamClosed param)) }
    {
        let default = mem::replace(&mut self.default, None);
        let values = mem::replace(&mut self.values, Values::new(self.alloc));
        self.params.push(ParamBlock {
            param,
            default,
            values,
        })?;
        Ok(())
    }

    /// The blocks.
    pub(crate) fn into_blocks(self) -> Blocks
        ensures { blocks_told result ≡ drafted (draft_view self) }
    {
        let Draft {
            alloc: _,
            members: _,
            default: _,
            values: _,
            sets,
            params,
            rounded,
        } = self;
        Blocks {
            sets,
            params,
            rounded,
        }
    }
}
