//! Variables as sums of columns, in rounded numbers.

use crate::access::{at, filled, item, put};
use crate::entries::Entry;
use crate::floats::float_of;
use crate::stop::Stop;
use std::alloc::Global;

/// A number below this part of what was added to it is an error of rounding, and counts as 0.
const NOTHING: f64 = 0.0000000000001;

/// Columns, each times a number, ascending; and a number.
#[derive(Drop)]
pub(crate) struct Sum {
    pub(crate) entries: Vec<(usize, f64)>,
    pub(crate) constant: f64,
}

/// A sum while it is gathered.
#[derive(Drop)]
pub(crate) struct Gathered {
    /// The number of each column so far.
    values: Vec<f64>,
    /// The sum of the absolute values that were added to it.
    sizes: Vec<f64>,
    /// The columns that have one.
    touched: Vec<usize>,
    constant: f64,
    /// The sum of the absolute values that were added to the constant.
    constant_size: f64,
}

impl Gathered {
    /// Nothing, of so many columns.
    pub(crate) fn new(alloc: Global, columns: usize) -> Result<Gathered, Stop> {
        Ok(Gathered {
            values: filled(alloc, 0.0, columns)?,
            sizes: filled(alloc, 0.0, columns)?,
            touched: Vec::new(alloc),
            constant: 0.0,
            constant_size: 0.0,
        })
    }

    /// Adds entries over a divisor, but for the one at a place. Each of their variables has to have its sum.
    pub(crate) fn add_entries(
        &mut self,
        sums: &[Option<Sum>],
        entries: &[Entry],
        divisor: f64,
        but: Option<usize>,
    ) -> Result<(), Stop> {
        for entry in entries {
            if Some(entry.at) == but {
                continue;
            }
            match item(sums, entry.at)? {
                Some(sum) => self.add_sum(sum, float_of(entry.number) / divisor)?,
                None => return Err(Stop::GivenUp),
            }
        }
        Ok(())
    }

    /// Adds a sum times a number.
    fn add_sum(&mut self, sum: &Sum, times: f64) -> Result<(), Stop> {
        for (column, number) in &sum.entries {
            self.add(*column, *number * times)?;
        }
        self.add_constant(sum.constant * times);
        Ok(())
    }

    /// Adds a number without a column.
    pub(crate) fn add_constant(&mut self, number: f64) {
        self.constant = self.constant + number;
        self.constant_size = self.constant_size + number.abs();
    }

    /// Adds a number at a column.
    fn add(&mut self, column: usize, number: f64) -> Result<(), Stop> {
        let size = at(&self.sizes, column)?;
        if size == 0.0 {
            self.touched.push(column)?;
        }
        put(&mut self.sizes, column, size + number.abs())?;
        let value = at(&self.values, column)?;
        put(&mut self.values, column, value + number)
    }

    /// What was gathered, times a number; nothing is left.
    pub(crate) fn take(&mut self, alloc: Global, times: f64) -> Result<Sum, Stop> {
        self.touched.sort()?;
        let mut entries = Vec::with_capacity(alloc, self.touched.len())?;
        for column in &self.touched {
            let value = at(&self.values, *column)?;
            let size = at(&self.sizes, *column)?;
            put(&mut self.values, *column, 0.0)?;
            put(&mut self.sizes, *column, 0.0)?;
            if value.abs() > size * NOTHING {
                entries.push((*column, value * times))?;
            }
        }
        self.touched.clear();
        let constant = if self.constant.abs() > self.constant_size * NOTHING {
            self.constant * times
        } else {
            0.0
        };
        self.constant = 0.0;
        self.constant_size = 0.0;
        Ok(Sum { entries, constant })
    }
}
