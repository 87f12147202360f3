//! How values and multipliers are rounded.

use exact_num::Frac;
use presolved_program::{
    Program, Stop, at, digits_before, filled, float_of_frac, float_power, quotient, rounded_to,
    whole,
};
use std::alloc::Global;

/// The most decimals that a multiplier gets: numbers with more seldom fit.
const MOST: i32 = 36;

/// How values and multipliers are rounded. Columns and rows are those of the linear program.
#[derive(Drop)]
pub struct Rounding {
    /// For each column a factor above 0: its value times this is a short decimal.
    pub units: Vec<Frac>,
    /// How many decimals the value times its factor gets.
    pub places: Vec<i32>,
    /// For each column how much its value may be raised when it was rounded upward; 0 where it is rounded to the nearest.
    pub rises: Vec<f64>,
    /// How many decimals the multiplier of each named row gets at most.
    pub digits: Vec<i32>,
    /// How many decimals the multiplier of a combination of rows gets at most.
    pub combined: i32,
    /// By how much the sum of each column's multipliers may be off for another cause than that they are rounded.
    pub errors: Vec<f64>,
}

/// Values with so many decimals beside their cost's digits before the point, and multipliers without a limit.
pub fn plain_rounding(alloc: Global, program: &Program, places: i32) -> Result<Rounding, Stop> {
    let count = program.all.free.len();
    let mut rounding = Rounding {
        units: filled(alloc, whole(1)?, count)?,
        places: Vec::with_capacity(alloc, count)?,
        rises: filled(alloc, 0.0, count)?,
        digits: filled(alloc, MOST, program.all.rows.len())?,
        combined: MOST,
        errors: filled(alloc, 0.0, count)?,
    };
    for cost in &program.all.costs {
        rounding.places.push(places_beside(*cost, places)?)?;
    }
    Ok(rounding)
}

/// So many decimals, and one more for each digit of a cost before the point.
pub fn places_beside(cost: f64, places: i32) -> Result<i32, Stop> {
    let more = if cost > 0.0 {
        digits_before(cost)?.max(0)
    } else {
        0
    };
    Ok(places.saturating_add(more))
}

/// What a guessed value is taken for more than a whole number of its last place, where it is rounded upward.
const SPARE: f64 = 0.0001;

impl Rounding {
    /// The value of a column.
    pub(crate) fn value(&self, column: usize, guess: f64) -> Result<Frac, Stop> {
        let unit = at(&self.units, column)?;
        let places = at(&self.places, column)?;
        let mut scaled = guess * float_of_frac(unit);
        if at(&self.rises, column)? > 0.0 {
            scaled = scaled + (0.5 - SPARE) / float_power(places);
        }
        quotient(rounded_to(scaled, places)?, unit)
    }

    /// Half a unit of a column's last place.
    pub(crate) fn half(&self, column: usize) -> Result<f64, Stop> {
        let unit = float_of_frac(at(&self.units, column)?);
        let places = at(&self.places, column)?;
        Ok(0.5 / float_power(places) / unit)
    }
}
