//! Which variables are basic, and where.

use crate::arrays::{at, filled, put};
use crate::marks::Marks;
use crate::sparse_vector::SparseVector;
use std::alloc::{AllocError, Global};

/// The basis of a linear program: variable j below the number of columns is column j, and then comes the slack of each row.
///
/// Each basic variable has a slot. The slots are in the order of the pivots of the factors; an update retires a slot and
/// adds one at the end.
#[derive(Drop)]
pub struct Basis {
    rows: usize,
    columns: usize,
    /// Room for so many slots.
    room: usize,
    variables: Vec<Option<usize>>,
    slots: Vec<Option<usize>>,
    /// The variables that have a slot.
    basic: Marks,
    slot_of_row: Vec<usize>,
    row_of_slot: Vec<usize>,
}

impl Basis {
    /// The basis of all slacks, with room for so many updates between two factorisations.
    pub fn of_slacks(
        alloc: Global,
        rows: usize,
        columns: usize,
        updates: usize,
    ) -> Result<Basis, AllocError> {
        let mut basis = Basis::of_none(alloc, rows, columns, updates)?;
        for row in 0..rows {
            basis.place(row, basis.slack(row));
        }
        Ok(basis)
    }

    /// The basis of these variables, with room for so many updates between two factorisations. Of more than there are rows, the first
    /// are taken; where there are fewer, slacks fill the basis when it is factored.
    pub fn of_variables(
        alloc: Global,
        rows: usize,
        columns: usize,
        updates: usize,
        chosen: &[usize],
    ) -> Result<Basis, AllocError> {
        let mut basis = Basis::of_none(alloc, rows, columns, updates)?;
        for (slot, variable) in chosen.iter().enumerate() {
            if slot < rows && !basis.is_basic(*variable) {
                basis.place(slot, *variable);
            }
        }
        Ok(basis)
    }

    /// A basis without variables.
    fn of_none(
        alloc: Global,
        rows: usize,
        columns: usize,
        updates: usize,
    ) -> Result<Basis, AllocError> {
        let room = rows.saturating_add(updates);
        let mut basis = Basis {
            rows,
            columns,
            room,
            variables: filled(alloc, None, room)?,
            slots: filled(alloc, None, columns.saturating_add(rows))?,
            basic: Marks::none(alloc, columns.saturating_add(rows))?,
            slot_of_row: filled(alloc, 0, rows)?,
            row_of_slot: filled(alloc, 0, rows)?,
        };
        for row in 0..rows {
            basis.pair(row, row);
        }
        Ok(basis)
    }

    /// The number of rows.
    pub fn rows(&self) -> usize {
        self.rows
    }

    /// The number of columns.
    pub fn columns(&self) -> usize {
        self.columns
    }

    /// Room for so many slots.
    pub fn room(&self) -> usize {
        self.room
    }

    /// The slack of a row.
    #[inline]
    pub fn slack(&self, row: usize) -> usize {
        self.columns.saturating_add(row)
    }

    /// The row whose slack a variable is.
    #[inline]
    pub fn row_of_slack(&self, variable: usize) -> Option<usize> {
        variable.checked_sub(self.columns)
    }

    /// The variable of a slot.
    #[inline]
    pub fn variable(&self, slot: usize) -> Option<usize> {
        at(&self.variables, slot, None)
    }

    /// The slot of a variable, if it is basic.
    #[inline]
    pub fn slot(&self, variable: usize) -> Option<usize> {
        at(&self.slots, variable, None)
    }

    /// Whether a variable is basic.
    #[inline]
    pub fn is_basic(&self, variable: usize) -> bool {
        self.basic.contains(variable)
    }

    /// Lists the nonbasic variables at which a vector's numbers aren't 0, and makes all others 0.
    pub fn gather_nonbasic(&self, vector: &mut SparseVector) -> Result<(), AllocError> {
        vector.gather_outside(&self.basic)
    }

    /// The slot whose pivot stood in a row when the factors were made.
    #[inline]
    pub fn slot_of_row(&self, row: usize) -> usize {
        at(&self.slot_of_row, row, usize::MAX)
    }

    /// The row of a slot's pivot.
    #[inline]
    pub fn row_of_slot(&self, slot: usize) -> usize {
        at(&self.row_of_slot, slot, usize::MAX)
    }

    /// Gives a variable a slot.
    pub fn place(&mut self, slot: usize, variable: usize) {
        put(&mut self.variables, slot, Some(variable));
        put(&mut self.slots, variable, Some(slot));
        self.basic.insert(variable);
    }

    /// Takes the slot from the variable that has it.
    pub fn retire(&mut self, slot: usize) {
        if let Some(variable) = self.variable(slot) {
            put(&mut self.slots, variable, None);
            self.basic.remove(variable);
        }
        put(&mut self.variables, slot, None);
    }

    /// Puts a slot's pivot into a row.
    pub(crate) fn pair(&mut self, slot: usize, row: usize) {
        put(&mut self.slot_of_row, row, slot);
        put(&mut self.row_of_slot, slot, row);
    }

    /// Takes all slots away.
    pub(crate) fn clear(&mut self) {
        for variable in self.variables.iter_mut() {
            *variable = None;
        }
        for slot in self.slots.iter_mut() {
            *slot = None;
        }
        self.basic.clear();
    }
}
