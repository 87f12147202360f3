//! Guesses in numbers that are short by their size, from the named rows alone.
//!
//! No defined variable is removed exactly for them, so rows whose exact elimination wants numbers of more than 128 bits are no hindrance.

ghost use Rattle.std.specs.Prelude.{◌≤◌, IfOk, IfSome};

use crate::asked::NamedRows;
use crate::carried_back::{Proving, multipliers_of_rows};
use crate::limit::{Origin, guess_from};
use crate::raising::raised_values;
use crate::refuting::{Refuting, elastic_guess};
use crate::room::{Room, room_of, rounding_within};
use crate::sizes::sum_errors;
use crate::starting::{column_values, starting_basis};
use crate::tries::RoundedEnd;
use call_stages::{Stage, Watcher};
use exact_num::Frac;
use presolved_program::{Aim, Layout, Program, Stop, at, layout_of, prepare_rows, put};
use rounded_program::{
    Margins, Rounding, margins_for, margins_of, named_multipliers, plain_rounding, rounded_program,
    values_of,
};
use rounded_simplex::LinearProgram;
use row_core::Var;
use std::alloc::Global;

/// The decimals of values and the significant digits of multipliers of the first guess, of which the sizes alone count.
const PLACES: i32 = 8;

const DIGITS: i32 = 10;

/// What guesses are made of: the rows by places, the smaller program, and what the first guess tells.
#[derive(Drop)]
pub(crate) struct Measured {
    layout: Layout,
    smaller: Program,
    first: FirstRoom,
}

/// The room for decimals that the first guess leaves, the basis at which it ended, and the pivots that it took.
#[derive(Drop)]
struct FirstRoom {
    room: Room,
    basis: Vec<usize>,
    pivots: u64,
}

/// Values of the columns, multipliers of the rows that are no equations, the pivots that they took and the basis that they ended at.
#[derive(Drop)]
struct Ended {
    values: Vec<Frac>,
    named: Vec<Frac>,
    pivots: u64,
    basis: Vec<usize>,
}

/// A first guess, which tells how large the numbers are, and so how many decimals there is room for. It starts from a value for each
/// variable, where there are any. None where there seems to be no plan.
pub(crate) fn measure(
    alloc: Global,
    asked: &NamedRows<'_>,
    start: Option<&[f64]>,
    pivots: u64,
    watcher: &mut dyn Watcher,
) -> Result<Option<Measured>, Stop>
    ensures { IfOk result (λ first. IfSome first (λ measured. measured.first.pivots ≤ pivots)) }
{
    watcher.see(Stage::Elimination);
    let layout = layout_of(alloc, asked.rows, asked.defs, asked.vars)?;
    let smaller = prepare_rows(alloc, asked.rows, asked.vars, &layout, Aim::Cheapest)?;
    if smaller.is_false() {
        return Ok(None);
    }
    match first_room(alloc, asked, &layout, &smaller, start, pivots, watcher)? {
        Some(first) => Ok(Some(Measured {
            layout,
            smaller,
            first,
        })),
        None => Ok(None),
    }
}

/// The first guess, and the room that it leaves. None where there seems to be no plan.
fn first_room(
    alloc: Global,
    asked: &NamedRows<'_>,
    layout: &Layout,
    smaller: &Program,
    start: Option<&[f64]>,
    pivots: u64,
    watcher: &mut dyn Watcher,
) -> Result<Option<FirstRoom>, Stop>
    ensures { IfOk result (λ first. IfSome first (λ f. f.pivots ≤ pivots)) }
{
    match first_guess(alloc, layout, smaller, start, pivots, watcher)? {
        Some(first) => {
            let room = room_of(
                alloc,
                asked.rows,
                asked.vars,
                layout,
                &first.values,
                &first.named,
            )?;
            Ok(Some(FirstRoom {
                room,
                basis: first.basis,
                pivots: first.pivots,
            }))
        }
        None => Ok(None),
    }
}

/// A guess with the margins of the first one, from the given values; none where there seems to be no plan.
fn first_guess(
    alloc: Global,
    layout: &Layout,
    smaller: &Program,
    start: Option<&[f64]>,
    pivots: u64,
    watcher: &mut dyn Watcher,
) -> Result<Option<Ended>, Stop>
    ensures made { IfOk result (λ end. IfSome end (λ e. e.pivots ≤ pivots)) }
{
    let margins = margins_of(alloc, smaller, PLACES, DIGITS)?;
    let asked = rounded_program(alloc, smaller, &margins)?;
    let given = column_values(alloc, layout, start)?;
    let basis = starting_basis(alloc, smaller, &asked, &given)?;
    end_of_guess(
        alloc,
        smaller,
        &margins,
        &asked,
        &basis,
        Origin::Values,
        pivots,
        watcher,
    )
}

/// A guess at the program with these margins, from this basis, if there is one; none where there seems to be no plan.
fn end_of_guess(
    alloc: Global,
    smaller: &Program,
    margins: &Margins,
    asked: &LinearProgram,
    start: &[usize],
    origin: Origin,
    pivots: u64,
    watcher: &mut dyn Watcher,
) -> Result<Option<Ended>, Stop>
    ensures made { IfOk result (λ end. IfSome end (λ e. e.pivots ≤ pivots)) }
{
    match guess_from(alloc, asked, start, origin, pivots, watcher)? {
        Some(guess) => Ok(Some(Ended {
            values: values_of(alloc, smaller, margins, &guess.values)?,
            named: named_multipliers(alloc, smaller, margins, &guess.multipliers)?,
            pivots: guess.pivots,
            basis: guess.basis,
        })),
        None => Ok(None),
    }
}

/// A guess with values of so many decimals and multipliers of so many significant digits, where there is room for them, from the end of
/// the first guess, with all pivots that both took. None where there seems to be no plan.
pub(crate) fn short_end(
    alloc: Global,
    asked: &NamedRows<'_>,
    measured: Measured,
    places: i32,
    digits: i32,
    pivots: u64,
    watcher: &mut dyn Watcher,
) -> Result<Option<RoundedEnd>, Stop>
    requires { measured.first.pivots ≤ pivots }
    ensures made { IfOk result (λ end. IfSome end (λ e. e.pivots ≤ pivots)) }
{
    let Measured {
        layout,
        smaller,
        first,
    } = measured;
    let rounding = rounding_within(alloc, asked, &layout, &smaller, &first.room, places)?;
    let left = pivots - first.pivots;
    match last_guess(
        alloc,
        smaller,
        rounding,
        &first.basis,
        digits,
        left,
        watcher,
    )? {
        Some(end) => {
            let values = raised_values(
                alloc,
                asked.rows,
                asked.vars,
                &layout,
                &first.room,
                &end.values,
            )?;
            let multipliers = multipliers_of_rows(
                alloc,
                asked.vars,
                &layout,
                &end.named,
                Proving::Bound,
                0,
            )?;
            Ok(Some(RoundedEnd {
                values,
                multipliers,
                pivots: first.pivots + end.pivots,
            }))
        }
        None => Ok(None),
    }
}

/// A guess with values rounded so and multipliers of so many significant digits, from this basis; none where there seems to be no
/// plan. The smaller program is gone after it, before values and multipliers of all rows need memory.
fn last_guess(
    alloc: Global,
    smaller: Program,
    rounding: Rounding,
    basis: &[usize],
    digits: i32,
    pivots: u64,
    watcher: &mut dyn Watcher,
) -> Result<Option<Ended>, Stop>
    ensures made { IfOk result (λ end. IfSome end (λ e. e.pivots ≤ pivots)) }
{
    let margins = margins_for(alloc, &smaller, rounding, digits)?;
    let asked = rounded_program(alloc, &smaller, &margins)?;
    end_of_guess(
        alloc,
        &smaller,
        &margins,
        &asked,
        basis,
        Origin::Guess,
        pivots,
        watcher,
    )
}

/// What multipliers that show that there is no plan are guessed of.
#[derive(Drop)]
pub(crate) struct Doubt {
    layout: Layout,
    smaller: Program,
}

/// The rows by places, and the smaller program without costs.
pub(crate) fn without_costs(alloc: Global, asked: &NamedRows<'_>) -> Result<Doubt, Stop> {
    let layout = layout_of(alloc, asked.rows, asked.defs, asked.vars)?;
    let smaller = prepare_rows(alloc, asked.rows, asked.vars, &layout, Aim::Refutation)?;
    Ok(Doubt { layout, smaller })
}

/// A multiplier for each row, in order, and the pivots that they took: they should show that there is no plan.
pub(crate) fn short_refuting(
    alloc: Global,
    vars: &[Var],
    doubt: &Doubt,
    digits: i32,
    more: i32,
    pivots: u64,
    watcher: &mut dyn Watcher,
) -> Result<Refuting, Stop>
    ensures made { IfOk result (λ end. end.pivots ≤ pivots) }
{
    let layout = &doubt.layout;
    let smaller = &doubt.smaller;
    let margins = refuting_margins(alloc, vars, layout, smaller, digits, more)?;
    let guess = elastic_guess(alloc, smaller, &margins, pivots, watcher)?;
    let named = named_multipliers(alloc, smaller, &margins, &guess.multipliers)?;
    let multipliers = multipliers_of_rows(alloc, vars, layout, &named, Proving::NoPlan, more)?;
    Ok(Refuting {
        multipliers,
        pivots: guess.pivots,
    })
}

/// The margins of multipliers with so many significant digits, and of sums with so many decimals more than the fewest.
fn refuting_margins(
    alloc: Global,
    vars: &[Var],
    layout: &Layout,
    smaller: &Program,
    digits: i32,
    more: i32,
) -> Result<Margins, Stop> {
    let mut rounding = plain_rounding(alloc, smaller, PLACES)?;
    let errors = sum_errors(alloc, vars, layout, more)?;
    for (column, variable) in layout.chosen.iter().enumerate() {
        put(&mut rounding.errors, column, at(&errors, *variable)?)?;
    }
    margins_for(alloc, smaller, rounding, digits)
}
