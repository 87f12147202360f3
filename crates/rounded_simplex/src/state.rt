//! The state of the simplex method, and what a pivot changes of it.

use crate::blocks::Blocks;
use crate::candidates::Candidates;
use crate::ratio_test::Ratio;
use crate::scaling::Scaled;
use sparse_factors::{Basis, Entry, Factors, Lists, SparseVector, at, factor, put};
use std::alloc::{AllocError, Global};

/// The factors are made anew after so many pivots, and one more for each ROWS_OF_UPDATE rows: to make them takes as long as there are rows,
/// and a pivot only as long as what it meets isn't 0.
const UPDATES: usize = 100;

const ROWS_OF_UPDATE: usize = 200;
/// So many singular bases in a row end the attempt.
const MOST_REPAIRS: usize = 50;

/// A basis with its factors, and the numbers that go with it.
#[derive(Drop)]
pub(crate) struct State {
    pub(crate) alloc: Global,
    pub(crate) program: Scaled,
    pub(crate) tolerance: f64,
    pub(crate) basis: Basis,
    pub(crate) factors: Factors,
    /// The values of the basic variables, by slot.
    pub(crate) values: Vec<f64>,
    /// The weights of dual steepest edge, by slot.
    pub(crate) weights: Vec<f64>,
    /// The weights of basic variables while the factors are made anew.
    kept_weights: Vec<f64>,
    /// The costs of the phase, by variable.
    pub(crate) costs: Vec<f64>,
    /// The reduced costs, by variable.
    pub(crate) reduced_costs: Vec<f64>,
    /// In the dual phase which slots may leave.
    pub(crate) blocks: Blocks,
    /// In the primal phase all variables whose reduced costs are below 0, others among them.
    pub(crate) low_variables: Candidates,
    /// The leaving slot's row of the inverse, by slot of the rows.
    pub(crate) inverse_row: SparseVector,
    /// That row while it was divided by U.
    row_in_upper: Vec<Entry>,
    /// The leaving slot's row of the tableau, by variable, of which the nonbasic ones are listed.
    pub(crate) row: SparseVector,
    /// What the ratio test of the dual phase looks at in that row.
    pub(crate) ratios: Vec<Ratio>,
    /// The entering variable's column of the tableau, by slot.
    pub(crate) column: SparseVector,
    /// That column before U.
    spike: SparseVector,
    /// The inverse times its own row, by slot.
    pub(crate) steepest: SparseVector,
    /// By slot, for whole solves.
    work: SparseVector,
    /// For rows that no update needs.
    unused: Vec<Entry>,
    /// The factors are made anew after so many pivots.
    pub(crate) updates: u64,
    /// How many pivots were made.
    pub(crate) made: u64,
}

/// The numbers of a state, by slot and by variable.
#[derive(Drop)]
struct Numbers {
    values: Vec<f64>,
    weights: Vec<f64>,
    kept_weights: Vec<f64>,
    costs: Vec<f64>,
    reduced_costs: Vec<f64>,
}

impl Numbers {
    /// Values and costs of 0, weights of 1.
    fn new(alloc: Global, room: usize, variables: usize) -> Result<Numbers, AllocError> {
        Ok(Numbers {
            values: constant(alloc, 0.0, room)?,
            weights: constant(alloc, 1.0, room)?,
            kept_weights: constant(alloc, 1.0, variables)?,
            costs: constant(alloc, 0.0, variables)?,
            reduced_costs: constant(alloc, 0.0, variables)?,
        })
    }
}

/// The vectors of a state.
#[derive(Drop)]
struct Vectors {
    inverse_row: SparseVector,
    row: SparseVector,
    column: SparseVector,
    spike: SparseVector,
    steepest: SparseVector,
    work: SparseVector,
}

impl Vectors {
    /// Vectors of zeros.
    fn new(alloc: Global, room: usize, variables: usize) -> Result<Vectors, AllocError> {
        Ok(Vectors {
            inverse_row: SparseVector::zeros(alloc, room)?,
            row: SparseVector::zeros(alloc, variables)?,
            column: SparseVector::zeros(alloc, room)?,
            spike: SparseVector::zeros(alloc, room)?,
            steepest: SparseVector::zeros(alloc, room)?,
            work: SparseVector::zeros(alloc, room)?,
        })
    }
}

/// All of these, and what choices look at.
#[derive(Drop)]
struct Memory {
    numbers: Numbers,
    vectors: Vectors,
    blocks: Blocks,
    low_variables: Candidates,
}

impl Memory {
    /// For so many slots and variables.
    fn new(alloc: Global, room: usize, variables: usize) -> Result<Memory, AllocError> {
        let blocks = Blocks::unknown(alloc, room)?;
        let low_variables = Candidates::none(alloc, variables)?;
        let numbers = Numbers::new(alloc, room, variables)?;
        Ok(Memory {
            vectors: Vectors::new(alloc, room, variables)?,
            numbers,
            blocks,
            low_variables,
        })
    }
}

impl State {
    /// The basis of these variables, or of all slacks where there are none. None where it stays singular.
    pub(crate) fn new(
        alloc: Global,
        program: Scaled,
        start: &[usize],
        tolerance: f64,
    ) -> Result<Option<State>, AllocError> {
        let updates = UPDATES.saturating_add(program.rows / ROWS_OF_UPDATE);
        match based(alloc, &program, start, updates)? {
            Some((basis, factors)) => {
                let variables = program.columns.saturating_add(program.rows);
                let memory = Memory::new(alloc, basis.room(), variables)?;
                let mut state = State::of(alloc, program, basis, factors, memory);
                state.tolerance = tolerance;
                state.updates = updates as u64;
                Ok(Some(state))
            }
            None => Ok(None),
        }
    }

    /// A state of its parts, before its first pivot.
    // (What is owned is made part by part in functions that own little: each `?` of a function drops all that it owns, and each drop is proved.)
    fn of(alloc: Global, program: Scaled, basis: Basis, factors: Factors, memory: Memory) -> State {
        let Memory {
            numbers,
            vectors,
            blocks,
            low_variables,
        } = memory;
        State {
            alloc,
            values: numbers.values,
            weights: numbers.weights,
            kept_weights: numbers.kept_weights,
            costs: numbers.costs,
            reduced_costs: numbers.reduced_costs,
            blocks,
            low_variables,
            inverse_row: vectors.inverse_row,
            row_in_upper: Vec::new(alloc),
            row: vectors.row,
            ratios: Vec::new(alloc),
            column: vectors.column,
            spike: vectors.spike,
            steepest: vectors.steepest,
            work: vectors.work,
            unused: Vec::new(alloc),
            updates: 0,
            made: 0,
            program,
            tolerance: 0.0,
            basis,
            factors,
        }
    }

    /// How many variables there are, with the slacks.
    pub(crate) fn variables(&self) -> usize {
        self.costs.len()
    }

    /// Makes the factors anew, and all that depends on them. False where the basis stayed singular, or where
    /// a number that came out isn't finite.
    pub(crate) fn renew(&mut self) -> Result<bool, AllocError> {
        self.keep_weights();
        match mended_factors(self.alloc, &self.program, &mut self.basis)? {
            Some(factors) => {
                self.factors = factors;
                self.restore_weights();
                self.solve_values()?;
                self.solve_reduced_costs()?;
                self.blocks.touch_all();
                self.low_variables
                    .note_below(&self.reduced_costs, -self.tolerance)?;
                Ok(all_finite(&self.values) && all_finite(&self.reduced_costs))
            }
            None => Ok(false),
        }
    }

    /// By how much the values are below 0, all together.
    pub(crate) fn values_below(&self) -> f64 {
        below(&self.values)
    }

    /// By how much the reduced costs are below 0, all together.
    pub(crate) fn costs_below(&self) -> f64 {
        below(&self.reduced_costs)
    }

    /// Keeps the weights by variable.
    fn keep_weights(&mut self) {
        for slot in 0..self.factors.slots() {
            if let Some(variable) = self.basis.variable(slot) {
                put(
                    &mut self.kept_weights,
                    variable,
                    at(&self.weights, slot, 1.0),
                );
            }
        }
    }

    /// Takes the weights back into their slots.
    fn restore_weights(&mut self) {
        for slot in 0..self.weights.len() {
            let weight = match self.basis.variable(slot) {
                Some(variable) => at(&self.kept_weights, variable, 1.0),
                None => 1.0,
            };
            put(&mut self.weights, slot, weight);
        }
    }

    /// Makes all weights 1.
    pub(crate) fn reset_weights(&mut self) {
        for weight in self.weights.iter_mut() {
            *weight = 1.0;
        }
        self.blocks.touch_all();
    }

    /// Solves for the values of the basic variables, and once more for what the first solution misses.
    fn solve_values(&mut self) -> Result<(), AllocError> {
        spread(&mut self.work, &self.program.right_sides, &self.basis);
        self.factors.ftran(&mut self.work)?;
        for value in self.values.iter_mut() {
            *value = 0.0;
        }
        for slot in self.work.listed() {
            put(&mut self.values, *slot, self.work.value(*slot));
        }
        let rest = self.rest_of_right_sides()?;
        spread(&mut self.work, &rest, &self.basis);
        self.factors.ftran(&mut self.work)?;
        for slot in self.work.listed() {
            let value = at(&self.values, *slot, 0.0) + self.work.value(*slot);
            put(&mut self.values, *slot, value);
        }
        Ok(())
    }

    /// What the values miss of the right sides, by row.
    fn rest_of_right_sides(&self) -> Result<Vec<f64>, AllocError> {
        let mut rest = Vec::from_slice(self.alloc, &self.program.right_sides)?;
        for (slot, value) in self.values.iter().enumerate() {
            if *value != 0.0 {
                if let Some(variable) = self.basis.variable(slot) {
                    match self.basis.row_of_slack(variable) {
                        Some(row) => {
                            let number = at(&rest, row, 0.0);
                            put(&mut rest, row, number - *value);
                        }
                        None => subtract(&mut rest, self.program.by_column.list(variable), *value),
                    }
                }
            }
        }
        Ok(rest)
    }

    /// Solves for the prices of the rows, and makes the reduced costs from them.
    fn solve_reduced_costs(&mut self) -> Result<(), AllocError> {
        self.work.clear();
        for slot in 0..self.program.rows {
            if let Some(variable) = self.basis.variable(slot) {
                let cost = at(&self.costs, variable, 0.0);
                if cost != 0.0 {
                    self.work.set(slot, cost);
                }
            }
        }
        self.factors.btran(&mut self.work, &mut self.unused)?;
        let mut prices = constant(self.alloc, 0.0, self.program.rows)?;
        for slot in self.work.listed() {
            put(
                &mut prices,
                self.basis.row_of_slot(*slot),
                self.work.value(*slot),
            );
        }
        for variable in 0..self.variables() {
            let reduced = if self.basis.is_basic(variable) {
                0.0
            } else {
                self.reduced_cost(variable, &prices)
            };
            put(&mut self.reduced_costs, variable, reduced);
        }
        Ok(())
    }

    /// The reduced cost of a nonbasic variable.
    fn reduced_cost(&self, variable: usize, prices: &[f64]) -> f64 {
        let mut reduced = at(&self.costs, variable, 0.0);
        match self.basis.row_of_slack(variable) {
            Some(row) => reduced -= at(prices, row, 0.0),
            None => {
                for entry in self.program.by_column.list(variable) {
                    reduced -= entry.value * at(prices, entry.at, 0.0);
                }
            }
        }
        reduced
    }

    /// Raises the costs of nonbasic variables whose reduced cost is below 0 until it is 0.
    pub(crate) fn shift_costs(&mut self) {
        for variable in 0..self.variables() {
            if at(&self.reduced_costs, variable, 0.0) < 0.0 && !self.basis.is_basic(variable) {
                self.shift_cost(variable);
            }
        }
    }

    /// Raises the cost of a variable until its reduced cost is 0.
    pub(crate) fn shift_cost(&mut self, variable: usize) {
        let cost = at(&self.costs, variable, 0.0) - at(&self.reduced_costs, variable, 0.0);
        put(&mut self.costs, variable, cost);
        put(&mut self.reduced_costs, variable, 0.0);
    }

    /// Makes the row of the inverse of a slot.
    pub(crate) fn make_inverse_row(&mut self, slot: usize) -> Result<(), AllocError> {
        self.inverse_row.clear();
        self.inverse_row.set(slot, 1.0);
        self.factors
            .btran(&mut self.inverse_row, &mut self.row_in_upper)
    }

    /// Makes the row of the tableau from the row of the inverse.
    pub(crate) fn make_row(&mut self) -> Result<(), AllocError> {
        self.row.clear();
        self.program
            .by_row
            .add_product(&self.inverse_row, &self.basis, &mut self.row)?;
        self.basis.gather_nonbasic(&mut self.row)
    }

    /// Makes the column of the tableau of a variable.
    pub(crate) fn make_column(&mut self, variable: usize) -> Result<(), AllocError> {
        self.column.clear();
        match self.basis.row_of_slack(variable) {
            Some(row) => self.column.set(self.basis.slot_of_row(row), 1.0),
            None => {
                for entry in self.program.by_column.list(variable) {
                    self.column
                        .set(self.basis.slot_of_row(entry.at), entry.value);
                }
            }
        }
        self.factors
            .ftran_keeping(&mut self.column, &mut self.spike)
    }

    /// Makes what the weights of dual steepest edge need.
    pub(crate) fn make_steepest(&mut self) -> Result<(), AllocError> {
        self.steepest.copy_listed(&self.inverse_row)?;
        self.factors.ftran_unlisted(&mut self.steepest);
        Ok(())
    }

    /// Puts a variable into the basis in the place of the one in a slot; the value and the weight go to the new slot.
    pub(crate) fn exchange(&mut self, slot: usize, variable: usize) -> Result<(), AllocError> {
        let added = self.factors.update(slot, &self.spike, &self.row_in_upper)?;
        if let Some(leaving) = self.basis.variable(slot) {
            put(&mut self.kept_weights, leaving, 1.0);
        }
        self.basis.retire(slot);
        self.basis.place(added, variable);
        let value = at(&self.values, slot, 0.0);
        put(&mut self.values, added, value);
        put(&mut self.values, slot, 0.0);
        let weight = at(&self.weights, slot, 1.0);
        put(&mut self.weights, added, weight);
        put(&mut self.weights, slot, 1.0);
        self.blocks.touch(slot);
        self.blocks.touch(added);
        self.made = self.made.saturating_add(1);
        Ok(())
    }
}

/// The first basis and its factors; none where it stays singular.
fn based(
    alloc: Global,
    program: &Scaled,
    start: &[usize],
    updates: usize,
) -> Result<Option<(Basis, Factors)>, AllocError> {
    let mut basis = first_basis(alloc, program, start, updates)?;
    match mended_factors(alloc, program, &mut basis)? {
        Some(factors) => Ok(Some((basis, factors))),
        None => Ok(None),
    }
}

/// The basis of these variables, or of all slacks where there are none, with room for so many updates and one more.
fn first_basis(
    alloc: Global,
    program: &Scaled,
    start: &[usize],
    updates: usize,
) -> Result<Basis, AllocError> {
    let room = updates.saturating_add(1);
    if start.is_empty() {
        Basis::of_slacks(alloc, program.rows, program.columns, room)
    } else {
        Basis::of_variables(alloc, program.rows, program.columns, room, start)
    }
}

/// The factors of a basis, in which slacks take the place of what makes it singular. None where it stays singular.
fn mended_factors(
    alloc: Global,
    program: &Scaled,
    basis: &mut Basis,
) -> Result<Option<Factors>, AllocError> {
    for _ in 0..MOST_REPAIRS {
        if let Some(factors) = factor(alloc, &program.by_column, basis)? {
            return Ok(Some(factors));
        }
    }
    Ok(None)
}

/// Whether all numbers are finite.
pub(crate) fn all_finite(numbers: &[f64]) -> bool {
    numbers.iter().all(|number| number.is_finite())
}

/// By how much numbers are below 0, all together.
fn below(numbers: &[f64]) -> f64 {
    let mut sum = 0.0;
    for number in numbers {
        if *number < 0.0 {
            sum -= *number;
        }
    }
    sum
}

/// So many times the same number.
pub(crate) fn constant(alloc: Global, number: f64, count: usize) -> Result<Vec<f64>, AllocError> {
    let mut list = Vec::with_capacity(alloc, count)?;
    for _ in 0..count {
        list.push(number)?;
    }
    Ok(list)
}

/// Takes the numbers of a list by rows into a vector by slots.
fn spread(vector: &mut SparseVector, numbers: &[f64], basis: &Basis) {
    vector.clear();
    for (row, number) in numbers.iter().enumerate() {
        if *number != 0.0 {
            vector.set(basis.slot_of_row(row), *number);
        }
    }
}

/// Takes `factor` times the entries away.
fn subtract(numbers: &mut [f64], entries: &[Entry], factor: f64) {
    for entry in entries {
        let number = at(numbers, entry.at, 0.0);
        put(numbers, entry.at, number - entry.value * factor);
    }
}
