//! The ratio test of the dual phase: which variable enters.

use crate::choices::{LEAST_PIVOT, Pivot, at_least_zero};
use crate::state::State;
use sparse_factors::at;
use std::alloc::AllocError;

/// By how much a reduced cost may fall below 0.
const COST_TOLERANCE: f64 = 1e-9;
/// A pivot is at least this part of the greatest that may be chosen.
const LEAST_PART: f64 = 0.1;

/// A variable that may limit the step: its entry in the row, and its reduced cost, both at least 0.
#[derive(Clone, Copy)]
pub(crate) struct Ratio {
    variable: usize,
    size: f64,
    reduced: f64,
}

impl Ratio {
    /// Whether the variable's reduced cost is used up within a step of this length.
    #[inline]
    fn is_within(&self, step: f64) -> bool {
        self.reduced <= step * self.size
    }
}

impl State {
    /// The variable to enter in the dual phase. Harris's test allows those whose steps keep all reduced costs within their tolerance. Among these it
    /// is the one with the shortest column, of those whose pivot is at least a tenth of the greatest; of equally short ones the one
    /// with the greater pivot. Short columns in the basis keep the rows of its inverse short, and a pivot takes as long as these.
    pub(crate) fn entering_in_row(&mut self) -> Result<Option<Pivot>, AllocError> {
        let step = self.list_ratios()?;
        let least = LEAST_PART * greatest_pivot(&self.ratios, step);
        Ok(self.shortest_column(step, least))
    }

    /// Lists the variables that may limit the step, and answers how far it may go.
    fn list_ratios(&mut self) -> Result<f64, AllocError> {
        let mut most = f64::MAX;
        self.ratios.clear();
        for variable in self.row.listed() {
            let size = -self.row.value(*variable);
            if size > LEAST_PIVOT {
                let ratio = Ratio {
                    variable: *variable,
                    size,
                    reduced: at_least_zero(at(&self.reduced_costs, *variable, 0.0)),
                };
                if ratio.is_within(most) {
                    self.ratios.push(ratio)?;
                    let step = (ratio.reduced + COST_TOLERANCE) / size;
                    if step < most {
                        most = step;
                    }
                }
            }
        }
        Ok(most)
    }

    /// The variable of the shortest column, among those within a step whose pivots are at least this.
    fn shortest_column(&self, step: f64, least: f64) -> Option<Pivot> {
        let mut best = None;
        let mut shortest = usize::MAX;
        let mut greatest = 0.0;
        for ratio in self.ratios.iter() {
            if ratio.size >= least && ratio.is_within(step) {
                let length = self.column_length(ratio.variable);
                if length < shortest || (length == shortest && ratio.size > greatest) {
                    shortest = length;
                    greatest = ratio.size;
                    best = Some(Pivot {
                        at: ratio.variable,
                        size: ratio.size,
                    });
                }
            }
        }
        best
    }

    /// How many entries a variable's column has.
    fn column_length(&self, variable: usize) -> usize {
        match self.basis.row_of_slack(variable) {
            Some(_) => 1,
            None => self.program.by_column.list(variable).len(),
        }
    }
}

/// The greatest pivot among those within a step; 0 where there is none.
fn greatest_pivot(ratios: &[Ratio], step: f64) -> f64 {
    let mut greatest = 0.0;
    for ratio in ratios {
        if ratio.size > greatest && ratio.is_within(step) {
            greatest = ratio.size;
        }
    }
    greatest
}
