//! The first lines of a linear program.

ghost use Rattle.std.specs.Prelude.{◌≡◌, ◌+◌, ◌<◌, ◌^◌, ◌++◌, [], ◌∷◌, true, IsTrue, IfOk, OnOk, length, map, if◌then◌else◌};
ghost use Rattle.exact_num.specs.Range.{InRange, all_fit};
ghost use Rattle.row_core.specs.LookUps.{value_at};
ghost use Rattle.row_core.specs.Numbers.{ascends, keys_of, numbers_of};
ghost use Rattle.row_core.specs.Order.{var_cmp};
ghost use Rattle.written_method.specs.FirstTableau.{any_negative, artificial_line, as_most, cost_line, counted_from, row_line, row_lines, width_of};
ghost use Rattle.written_method.specs.Programs.{LinearProgram, inequality_of, is_split, program_of};
ghost use Rattle.int_tableau.specs.Starts.{column_entries, in_columns, in_columns_of, placed, x0_column};

use crate::line::SparseLine;
use row_core::kind_numbers::TRADE;
use row_core::{Row, Sense, Var, look_up};
use std::alloc::{AllocError, Global};
use written_method::Reduced;

/// Whether a variable may be negative, and so has two columns: Trade, which stands for a positive part less a negative part.
pub fn is_split(variable: Var) -> bool
    ensures { result ≡ is_split variable }
{
    variable.kind == TRADE
}

/// A number of a row as the row reads at most its right side: a row of at least is multiplied by -1.
pub fn as_most(sense: Sense, number: i128) -> i128
    requires { InRange number }
    ensures value { result ≡ as_most sense number }
    ensures range { InRange result }
{
    match sense {
        Sense::Least => -number,
        Sense::Equal => number,
        Sense::Most => number,
    }
}

/// Whether some right side is negative as its row reads at most.
pub(crate) fn any_negative(rows: &[Row]) -> bool
    ensures { result ≡ any_negative (map inequality_of rows.now) }
{
    for row in rows {
        if as_most(row.sense, row.rhs) < 0 {
            return true;
        }
    }
    false
}

/// Where the columns of a linear program stand: those of the variables, then the slacks, then x0 where it is there.
#[derive(Drop)]
pub(crate) struct Layout {
    /// The first column of each variable.
    pub(crate) places: Vec<(Var, usize)>,
    /// How many columns the variables have.
    pub(crate) width: usize,
    /// How many rows there are, each with a slack.
    pub(crate) rows: usize,
    /// Whether x0 is there.
    pub(crate) artificial: bool,
    pub(crate) ghost placed: { placed 0 (keys_of places.items) ≡ places.items },
    pub(crate) ghost ascending: { IsTrue (ascends var_cmp (keys_of places.items)) },
    pub(crate) ghost width_is: { width ≡ width_of (keys_of places.items) },
    pub(crate) ghost countable: { width + rows + 1 < 2 ^ 64 },
}

impl Layout {
    /// The layout of variables in ascending order.
    pub(crate) fn new(
        alloc: Global,
        variables: &[Var],
        rows: usize,
        artificial: bool,
    ) -> Result<Layout, AllocError>
        requires ascending { IsTrue (ascends var_cmp variables.now) }
        requires countable { width_of variables.now + rows + 1 < 2 ^ 64 }
        ensures variables { IfOk result (λ l. keys_of l.places.items ≡ variables.now) }
        ensures rows { IfOk result (λ l. l.rows ≡ rows) }
        ensures artificial { IfOk result (λ l. l.artificial ≡ artificial) }
    {
        let mut places = Vec::with_capacity(alloc, variables.len())?;
        let mut width = 0;
        for variable in variables {
            places.push((*variable, width))?;
            width = column_after(*variable, width);
        }
        Ok(Layout {
            places,
            width,
            rows,
            artificial,
        })
    }

    /// How many columns there are in all.
    pub(crate) fn columns(&self) -> usize
        ensures { result ≡ self.now.width + self.now.rows + (if self.now.artificial then 1 else 0) }
    {
        if self.artificial {
            self.width + self.rows + 1
        } else {
            self.width + self.rows
        }
    }
}

/// The column after those of a variable whose first column is this one.
pub fn column_after(variable: Var, column: usize) -> usize
    requires { column + 2 < 2 ^ 64 }
    ensures { result ≡ (if is_split variable then column + 2 else column + 1) }
{
    if is_split(variable) {
        column + 2
    } else {
        column + 1
    }
}

/// Appends what a number gives the columns of a variable.
fn push_columns(
    entries: &mut Vec<(usize, i128)>,
    split: bool,
    column: usize,
    number: i128,
) -> Result<(), AllocError>
    requires range { InRange number }
    requires countable { column + 1 < 2 ^ 64 }
    ensures pushed { OnOk result (entries.new.items ≡ entries.old.items ++ in_columns split column number) }
{
    if number != 0 {
        entries.push((column, number))?;
        if split {
            entries.push((column + 1, -number))?;
        }
    }
    Ok(())
}

/// Appends what a number gives the columns of a variable, if it has any.
fn push_variable(
    entries: &mut Vec<(usize, i128)>,
    layout: &Layout,
    variable: Var,
    number: i128,
) -> Result<(), AllocError>
    requires { InRange number }
    ensures pushed { OnOk result (entries.new.items ≡ entries.old.items ++ in_columns_of (is_split variable) number (value_at var_cmp layout.now.places.items variable)) }
{
    match look_up(&layout.places, variable) {
        Some(column) => push_columns(entries, is_split(variable), column, number),
        None => Ok(()),
    }
}

/// Appends the entries of variables by column, as a row of this sense reads at most.
fn push_variables(
    entries: &mut Vec<(usize, i128)>,
    layout: &Layout,
    sense: Sense,
    numbers: &[(Var, i128)],
) -> Result<(), AllocError>
    requires fits { all_fit (numbers_of numbers.now) ≡ true }
    ensures pushed { OnOk result (entries.new.items ≡ entries.old.items ++ column_entries sense layout.now.places.items numbers.now) }
{
    for number in numbers {
        push_variable(entries, layout, number.0, as_most(sense, number.1))?;
    }
    Ok(())
}

/// Appends the entry at x0, where it is there.
fn push_x0(entries: &mut Vec<(usize, i128)>, layout: &Layout) -> Result<(), AllocError>
    ensures pushed { OnOk result (entries.new.items ≡ entries.old.items ++ x0_column layout.now.artificial (layout.now.width + layout.now.rows)) }
{
    if layout.artificial {
        entries.push((layout.width + layout.rows, -1))?;
    }
    Ok(())
}

/// The line of a row.
fn row_line(
    alloc: Global,
    layout: &Layout,
    position: usize,
    row: &Row,
) -> Result<SparseLine, AllocError>
    requires { position < layout.now.rows }
    ensures { IfOk result (λ l. l ≡ row_line (keys_of layout.now.places.items) layout.now.artificial layout.now.rows position (inequality_of row.now)) }
{
    let mut entries = Vec::with_capacity(alloc, row.entries.len())?;
    push_variables(&mut entries, layout, row.sense, &row.entries)?;
    entries.push((layout.width + position, 1))?;
    push_x0(&mut entries, layout)?;
    SparseLine::new(
        alloc,
        layout.columns(),
        &entries,
        as_most(row.sense, row.rhs),
        0,
    )
}

/// Appends the lines of all rows.
pub(crate) fn push_row_lines(
    lines: &mut Vec<SparseLine>,
    alloc: Global,
    layout: &Layout,
    rows: &[Row],
) -> Result<(), AllocError>
    requires { length rows.now ≡ layout.now.rows }
    ensures pushed { OnOk result (lines.new.items ≡ lines.old.items ++ row_lines (keys_of layout.now.places.items) layout.now.artificial layout.now.rows 0 (map inequality_of rows.now)) }
{
    for position in 0..rows.len() {
        lines.push(row_line(alloc, layout, position, &rows[position])?)?;
    }
    Ok(())
}

/// The line of z.
pub(crate) fn cost_line(
    alloc: Global,
    layout: &Layout,
    reduced: &Reduced,
) -> Result<SparseLine, AllocError>
    requires variables { keys_of layout.now.places.items ≡ reduced.now.columns.items }
    requires rows { layout.now.rows ≡ length reduced.now.rows.items }
    requires ascending { IsTrue (ascends var_cmp (keys_of reduced.now.cost.items)) }
    requires fits { all_fit (numbers_of reduced.now.cost.items) ≡ true }
    requires right_fits { InRange reduced.now.cost_rhs }
    requires own_fits { InRange reduced.now.cost_own }
    ensures { IfOk result (λ l. l ≡ cost_line (program_of reduced.now) layout.now.artificial) }
{
    let mut entries = Vec::with_capacity(alloc, reduced.cost.len())?;
    push_variables(&mut entries, layout, Sense::Most, &reduced.cost)?;
    SparseLine::new(
        alloc,
        layout.columns(),
        &entries,
        reduced.cost_rhs,
        reduced.cost_own,
    )
}

/// Appends the line of w, where x0 is there.
pub(crate) fn push_artificial_line(
    lines: &mut Vec<SparseLine>,
    alloc: Global,
    layout: &Layout,
) -> Result<(), AllocError>
    ensures pushed { (p : LinearProgram) → p.columns ≡ keys_of layout.now.places.items → length p.rows ≡ layout.now.rows
        → OnOk result (lines.new.items ≡ lines.old.items ++ (if layout.now.artificial then (artificial_line p ∷ []) else [])) }
{
    if layout.artificial {
        let mut entries = Vec::with_capacity(alloc, 1)?;
        push_x0(&mut entries, layout)?;
        lines.push(SparseLine::new(alloc, layout.columns(), &entries, 0, 1)?)?;
    }
    Ok(())
}

/// The slack columns, which are basic at first.
pub(crate) fn slack_columns(alloc: Global, layout: &Layout) -> Result<Vec<usize>, AllocError>
    ensures { IfOk result (λ columns. columns.items ≡ counted_from layout.now.width layout.now.rows) }
{
    let mut columns = Vec::with_capacity(alloc, layout.rows)?;
    for position in 0..layout.rows {
        columns.push(layout.width + position)?;
    }
    Ok(columns)
}
