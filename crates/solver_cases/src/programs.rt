//! Small linear programs from their text.

ghost use Rattle.std.specs.Prelude.{IfOk};
ghost use Rattle.exact_num.specs.Range.{InRange};
ghost use Rattle.written_method.specs.Ready.{IsReady};

use crate::small_rows::{ACTIVITY, CAPACITY, FIRST, number, rows};
use row_core::kind_numbers::TRADE;
use row_core::{Stopped, Var};
use std::alloc::Global;
use written_method::Reduced;

/// An exchange, which may be negative.
const EXCHANGE: Var = Var {
    kind: TRADE,
    index: FIRST,
};

/// The number of a variable in `z - cost = 0`, from its cost.
fn cost_number(text: Option<&str>) -> i128
    ensures { InRange result }
{
    -i128::from(number(text))
}

/// A linear program of the text of its rows, up to 100, and of its cost, which is to be minimised.
pub(crate) fn program(alloc: Global, rows_text: &str, cost_text: &str) -> Result<Reduced, Stopped>
    ensures { IfOk result IsReady }
{
    let given = rows(alloc, EXCHANGE, rows_text)?;
    if given.len() > 100 {
        return Err(Stopped::Memory);
    }
    let mut words = cost_text.split_ascii_whitespace();
    let first = cost_number(words.next());
    let second = cost_number(words.next());
    let third = cost_number(words.next());
    let cost = [(ACTIVITY, first), (CAPACITY, second), (EXCHANGE, third)];
    Ok(Reduced {
        rows: given,
        scales: Vec::new(alloc),
        columns: Vec::from_array(alloc, [ACTIVITY, CAPACITY, EXCHANGE])?,
        cost: Vec::from_array(alloc, cost)?,
        cost_rhs: 0,
        cost_own: 1,
    })
}
