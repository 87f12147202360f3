//! Rows by the places of their variables.

use crate::access::{empty_lists, filled, push_at, put};
use crate::entries::Entry;
use crate::stop::Stop;
use row_core::{Row, Sense, Var};
use std::alloc::Global;

/// Rows and columns of named rows. A place is that of a variable in the list of all variables, or that of a row.
#[derive(Drop)]
pub struct Layout {
    /// The entries of each row, ascending by variable.
    pub rows: Vec<Vec<Entry>>,
    /// The entries of each variable, ascending by row.
    pub columns: Vec<Vec<Entry>>,
    /// For each row the variable that it defines, if it defines one.
    pub defined: Vec<Option<usize>>,
    /// For each variable the row that defines it, if one does.
    pub definer: Vec<Option<usize>>,
    /// The variables that no row defines, ascending: the columns of the linear program.
    pub chosen: Vec<usize>,
    /// The rows that are no equations, ascending: the rows of the linear program.
    pub left: Vec<usize>,
}

/// The layout of rows. `defs` says of each row which variable it defines, if it defines one, and `vars` are the variables of the
/// rows, ascending.
pub fn layout_of(
    alloc: Global,
    rows: &[Row],
    defs: &[Option<Var>],
    vars: &[Var],
) -> Result<Layout, Stop> {
    let mut layout = Layout {
        rows: Vec::with_capacity(alloc, rows.len())?,
        columns: empty_lists(alloc, vars.len())?,
        defined: Vec::with_capacity(alloc, rows.len())?,
        definer: filled(alloc, None, vars.len())?,
        chosen: Vec::new(alloc),
        left: Vec::new(alloc),
    };
    fill(alloc, &mut layout, rows, defs, vars)?;
    Ok(layout)
}

/// Lays the rows out, one after another.
fn fill(
    alloc: Global,
    layout: &mut Layout,
    rows: &[Row],
    defs: &[Option<Var>],
    vars: &[Var],
) -> Result<(), Stop> {
    for (row, def) in rows.iter().zip(defs.iter()) {
        add_row(alloc, layout, row, vars)?;
        add_definition(layout, *def, vars)?;
    }
    for (variable, definer) in layout.definer.iter().enumerate() {
        if definer.is_none() {
            layout.chosen.push(variable)?;
        }
    }
    Ok(())
}

/// Adds the entries of a row.
fn add_row(alloc: Global, layout: &mut Layout, row: &Row, vars: &[Var]) -> Result<(), Stop> {
    let place = layout.rows.len();
    let mut entries = Vec::with_capacity(alloc, row.entries.len())?;
    for (var, number) in &row.entries {
        let variable = place_of(vars, *var)?;
        entries.push(Entry::new(variable, *number)?)?;
        push_at(&mut layout.columns, variable, Entry::new(place, *number)?)?;
    }
    layout.rows.push(entries)?;
    if row.sense != Sense::Equal {
        layout.left.push(place)?;
    }
    Ok(())
}

/// Notes what the last row defines.
fn add_definition(layout: &mut Layout, def: Option<Var>, vars: &[Var]) -> Result<(), Stop> {
    let row = layout.defined.len();
    match def {
        Some(var) => {
            let variable = place_of(vars, var)?;
            put(&mut layout.definer, variable, Some(row))?;
            layout.defined.push(Some(variable))?;
        }
        None => layout.defined.push(None)?,
    }
    Ok(())
}

/// The place of a variable.
fn place_of(vars: &[Var], var: Var) -> Result<usize, Stop> {
    match vars.binary_search(&var) {
        Ok(place) => Ok(place),
        Err(_) => Err(Stop::GivenUp),
    }
}

/// The number of entries at a place, by binary search; 0 where they have none.
pub fn number_at(entries: &[Entry], place: usize) -> i128 {
    match entries.binary_search_by_key(&place, |entry| entry.at) {
        Ok(found) => entries[found].number,
        Err(_) => 0,
    }
}
