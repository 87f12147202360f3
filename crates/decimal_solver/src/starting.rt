//! The first tableau of the grid.

ghost use Rattle.std.specs.Prelude.{[], ◌≡◌, ◌+◌, ◌<◌, ◌^◌, true, ◌++◌, map, length, Some, IfOk, IfErr, IsTrue, OnOk, unsigned_abs};
ghost use Rattle.row_problem.specs.Prelude.{InRange, all_fit, value_at, ascends, keys_of, numbers_of, var_cmp, width_of, inequality_of, is_split, program_of, IsReady, Memory};
ghost use Rattle.int_tableau.specs.Starts.{in_columns, in_columns_of, placed};
ghost use Rattle.decimal_solver.specs.Starts.{cost_entries, first_entries, first_row, first_rows, first_state, greatest_entry};
ghost use Rattle.decimal_solver.specs.Views.{IsNothing, entries_seen, row_seen, rows_seen, state_seen};

use crate::choosing::least_right;
use crate::lines::push_entry;
use crate::numbers::{UNIT, lowered, opposite, raised, scaled_number};
use crate::states::{Entry, GridRow, Line, Phase, State};
use certified_answers::NoAnswer;
use int_tableau::{as_most, column_after, is_split};
use row_core::{Row, Var, look_up, number_of};
use std::alloc::{AllocError, Global};
use written_method::Reduced;

/// Where the columns stand: those of the variables, then a slack for each row, then x0.
#[derive(Drop)]
struct Layout {
    /// The first column of each variable.
    places: Vec<(Var, usize)>,
    /// How many columns the variables have.
    width: usize,
    /// How many rows there are.
    rows: usize,
    ghost placed: { placed 0 (keys_of places.items) ≡ places.items },
    ghost ascending: { IsTrue (ascends var_cmp (keys_of places.items)) },
    ghost width_is: { width ≡ width_of (keys_of places.items) },
    ghost countable: { width + rows + 1 < 2 ^ 64 },
}

/// The layout of variables in ascending order.
fn layout_of(alloc: Global, variables: &[Var], rows: usize) -> Result<Layout, AllocError>
    requires ascending { IsTrue (ascends var_cmp variables.now) }
    requires countable { width_of variables.now + rows + 1 < 2 ^ 64 }
    ensures variables { IfOk result (λ l. keys_of l.places.items ≡ variables.now) }
    ensures rows { IfOk result (λ l. l.rows ≡ rows) }
{
    let mut places = Vec::with_capacity(alloc, variables.len())?;
    let mut width = 0;
    for variable in variables {
        places.push((*variable, width))?;
        width = column_after(*variable, width);
    }
    Ok(Layout {
        places,
        width,
        rows,
    })
}

/// The greatest absolute value of some numbers.
#[tactic(auto, unfolding(crate::specs::Starts::greatest_entry))]
fn greatest_entry(entries: &[(Var, i128)]) -> u128
    requires { all_fit (numbers_of entries.now) ≡ true }
    ensures value { result ≡ greatest_entry 0 entries.now }
    ensures range { result < 2 ^ 127 }
{
    let mut greatest = 0;
    for entry in entries {
        let size = entry.1.unsigned_abs();
        if greatest < size {
            greatest = size;
        }
    }
    greatest
}

/// Appends what a number gives the columns of a variable.
fn push_columns(
    entries: &mut Vec<Entry>,
    split: bool,
    column: usize,
    number: i128,
) -> Result<(), NoAnswer>
    requires range { InRange number }
    requires countable { column + 1 < 2 ^ 64 }
    ensures pushed { OnOk result (entries_seen entries.new.items ≡ entries_seen entries.old.items ++ in_columns split column number) }
    ensures memory { IfErr result (λ e. e ≡ Memory) }
{
    if number != 0 {
        entries.push(Entry { column, number })?;
        if split {
            entries.push(Entry {
                column: column + 1,
                number: opposite(number),
            })?;
        }
    }
    Ok(())
}

/// Appends what a number gives the columns of a variable, if it has any.
fn push_variable(
    entries: &mut Vec<Entry>,
    layout: &Layout,
    variable: Var,
    number: i128,
) -> Result<(), NoAnswer>
    requires { InRange number }
    ensures pushed { OnOk result (entries_seen entries.new.items ≡ entries_seen entries.old.items ++ in_columns_of (is_split variable) number (value_at var_cmp layout.now.places.items variable)) }
    ensures memory { IfErr result (λ e. e ≡ Memory) }
{
    match look_up(&layout.places, variable) {
        Some(column) => push_columns(entries, is_split(variable), column, number),
        None => Ok(()),
    }
}

/// The entries of a row in the columns of variables: each is divided by `m`, after it was multiplied by `f`.
#[tactic(auto, unfolding(crate::specs::Starts::first_entries))]
fn first_entries(
    alloc: Global,
    f: i128,
    m: u128,
    layout: &Layout,
    numbers: &[(Var, i128)],
) -> Result<Vec<Entry>, NoAnswer>
    requires { all_fit (numbers_of numbers.now) ≡ true }
    ensures value { IfOk result (λ made. first_entries f m layout.now.places.items [] numbers.now ≡ Some (entries_seen made.items)) }
    ensures nothing { IfErr result (IsNothing (first_entries f m layout.now.places.items [] numbers.now)) }
{
    let mut made = Vec::with_capacity(alloc, numbers.len())?;
    for entry in numbers {
        let number = scaled_number(f, entry.1, m)?;
        push_variable(&mut made, layout, entry.0, number)?;
    }
    Ok(made)
}

/// A row, as it reads at most.
fn first_row(
    alloc: Global,
    layout: &Layout,
    position: usize,
    row: &Row,
) -> Result<GridRow, NoAnswer>
    requires { position < layout.now.rows }
    ensures value { IfOk result (λ made. first_row layout.now.places.items layout.now.width layout.now.rows position (inequality_of row.now) ≡ Some (row_seen made)) }
    ensures nothing { IfErr result (IsNothing (first_row layout.now.places.items layout.now.width layout.now.rows position (inequality_of row.now))) }
{
    let f = as_most(row.sense, UNIT);
    let m = greatest_entry(&row.entries);
    let mut entries = first_entries(alloc, f, m, layout, &row.entries)?;
    let right = lowered(scaled_number(f, row.rhs, m)?)?;
    entries.push(Entry {
        column: layout.width + position,
        number: UNIT,
    })?;
    entries.push(Entry {
        column: layout.width + layout.rows,
        number: -UNIT,
    })?;
    Ok(GridRow {
        line: Line { entries, right },
        basic: layout.width + position,
        scale: as_most(row.sense, m as i128),
    })
}

/// All rows.
#[tactic(auto, unfolding(crate::specs::Starts::first_rows))]
fn first_rows(alloc: Global, layout: &Layout, rows: &[Row]) -> Result<Vec<GridRow>, NoAnswer>
    requires { length rows.now ≡ layout.now.rows }
    ensures value { IfOk result (λ made. first_rows layout.now.places.items layout.now.width layout.now.rows [] (map inequality_of rows.now) ≡ Some (rows_seen made.items)) }
    ensures counted { IfOk result (λ made. length made.items ≡ length rows.now) }
    ensures nothing { IfErr result (IsNothing (first_rows layout.now.places.items layout.now.width layout.now.rows [] (map inequality_of rows.now))) }
{
    let mut made = Vec::with_capacity(alloc, rows.len())?;
    for (position, row) in rows.iter().enumerate() {
        made.push(first_row(alloc, layout, position, row)?)?;
    }
    Ok(made)
}

/// The entries of the line of z.
#[tactic(auto, unfolding(crate::specs::Starts::cost_entries))]
fn cost_entries(
    alloc: Global,
    layout: &Layout,
    cost: &[(Var, i128)],
    own: u128,
) -> Result<Vec<Entry>, NoAnswer>
    requires ascending { IsTrue (ascends var_cmp (keys_of cost.now)) }
    requires fits { all_fit (numbers_of cost.now) ≡ true }
    ensures value { IfOk result (λ made. cost_entries cost.now own [] layout.now.places.items ≡ Some (entries_seen made.items)) }
    ensures nothing { IfErr result (IsNothing (cost_entries cost.now own [] layout.now.places.items)) }
{
    let mut made = Vec::with_capacity(alloc, layout.width)?;
    for place in layout.places.iter() {
        let number = scaled_number(UNIT, number_of(cost, place.0), own)?;
        if is_split(place.0) {
            push_entry(&mut made, place.1, number)?;
            push_entry(&mut made, place.1 + 1, opposite(number))?;
        } else {
            push_entry(&mut made, place.1, raised(number)?)?;
        }
    }
    Ok(made)
}

/// The first state of a linear program.
pub(crate) fn first_state(alloc: Global, reduced: &Reduced) -> Result<State, NoAnswer>
    requires { IsReady reduced.now }
    ensures value { IfOk result (λ state. first_state (program_of reduced.now) ≡ Some (state_seen state)) }
    ensures nothing { IfErr result (IsNothing (first_state (program_of reduced.now))) }
    ensures none_made { IfOk result (λ state. state.pivots ≡ 0) }
    ensures degenerate { IfOk result (λ state. state.degenerate ≡ 0) }
    ensures counted { IfOk result (λ state. length state.rows.items ≡ length reduced.now.rows.items) }
    ensures slack { IfOk result (λ state. state.slack ≡ width_of reduced.now.columns.items) }
{
    let layout = layout_of(alloc, &reduced.columns, reduced.rows.len())?;
    let rows = first_rows(alloc, &layout, &reduced.rows)?;
    let cost = cost_entries(
        alloc,
        &layout,
        &reduced.cost,
        reduced.cost_own.unsigned_abs(),
    )?;
    let x0 = layout.width + layout.rows;
    let mut artificial = Vec::with_capacity(alloc, 1)?;
    artificial.push(Entry {
        column: x0,
        number: -UNIT,
    })?;
    let (phase, columns) = match least_right(&rows) {
        None => (Phase::Two, x0),
        Some(_) => (Phase::Start, x0 + 1),
    };
    Ok(State {
        rows,
        cost: Line {
            entries: cost,
            right: 0,
        },
        artificial: Line {
            entries: artificial,
            right: 0,
        },
        phase,
        slack: layout.width,
        columns,
        pivots: 0,
        degenerate: 0,
    })
}
