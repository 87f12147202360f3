//! Walks through the subscripts of an equation.

ghost use Rattle.std.specs.Prelude.{◌≡◌, ◌++◌, OnOk, IfOk, [], ◌∷◌};
ghost use Rattle.std.specs.List.{range_with_len};
ghost use Rattle.row_core.specs.Equations.{IsEquation};
ghost use Rattle.named_equations.specs.Indices.{at_r};
ghost use Rattle.named_equations.specs.Instances.{subscripts_of, values_at};
ghost use Rattle.row_book.specs.Walks.{moved, place_of, set_of, walk};

use model_sets::set_numbers::{
    EMISSION, FUEL, MODE_OF_OPERATION, REGION, TECHNOLOGY, TIMESLICE, YEAR,
};
use param_tables::ModelData;
use row_core::{Index, row_has};
use std::alloc::{AllocError, Global};

/// A subscript of an index.
#[derive(Clone, Copy)]
pub(crate) enum Subscript {
    Region,
    Other,
    Slice,
    Tech,
    Fuel,
    Emission,
    Mode,
    Year,
}

impl Subscript {
    /// Its place among the fields of an index.
    fn place(self) -> u8
        ensures { result ≡ place_of self }
    {
        match self {
            Subscript::Region => 0,
            Subscript::Other => 1,
            Subscript::Slice => 2,
            Subscript::Tech => 3,
            Subscript::Fuel => 4,
            Subscript::Emission => 5,
            Subscript::Mode => 6,
            Subscript::Year => 7,
        }
    }

    /// The number of the set over which it runs.
    fn set(self) -> u8
        ensures { result ≡ set_of self }
    {
        match self {
            Subscript::Region | Subscript::Other => REGION,
            Subscript::Slice => TIMESLICE,
            Subscript::Tech => TECHNOLOGY,
            Subscript::Fuel => FUEL,
            Subscript::Emission => EMISSION,
            Subscript::Mode => MODE_OF_OPERATION,
            Subscript::Year => YEAR,
        }
    }
}

/// The subscripts after the region of which it doesn't depend whether an equation has an instance.
pub(crate) static OUTER: [Subscript; 2] = [Subscript::Other, Subscript::Slice];

/// Those of which it may depend.
pub(crate) static INNER: [Subscript; 5] = [
    Subscript::Tech,
    Subscript::Fuel,
    Subscript::Emission,
    Subscript::Mode,
    Subscript::Year,
];

/// The index of a region, with 0 for the other subscripts.
pub(crate) fn in_region(region: u16) -> Index
    ensures { result ≡ at_r region }
{
    Index {
        region,
        other: 0,
        slice: 0,
        tech: 0,
        fuel: 0,
        emission: 0,
        mode: 0,
        year: 0,
    }
}

/// The index with another position of the subscript.
fn moved(mut index: Index, subscript: Subscript, position: u16) -> Index
    ensures { result ≡ moved index subscript position }
{
    match subscript {
        Subscript::Region => index.region = position,
        Subscript::Other => index.other = position,
        Subscript::Slice => index.slice = position,
        Subscript::Tech => index.tech = position,
        Subscript::Fuel => index.fuel = position,
        Subscript::Emission => index.emission = position,
        Subscript::Mode => index.mode = position,
        Subscript::Year => index.year = position,
    }
    index
}

/// How many values the subscript takes in the instances of the equation: as many as its set has members, and
/// one, which is 0, where the equation doesn't have it.
pub(crate) fn number_of_values(model: &ModelData, eq: u8, subscript: Subscript) -> u16
    requires { IsEquation eq }
    ensures { range_with_len 0 result ≡ values_at model.now.facts (subscripts_of eq) (place_of subscript) }
{
    if row_has(eq, subscript.place()) {
        model.sets().count(subscript.set())
    } else {
        1
    }
}

/// Appends the indices that come from `start` when each of these subscripts in turn takes each of its values
/// in the instances of the equation.
fn push_walk(
    out: &mut Vec<Index>,
    model: &ModelData,
    eq: u8,
    subscripts: &[Subscript],
    start: Index,
) -> Result<(), AllocError>
    requires { IsEquation eq }
    ensures { OnOk result (out.new.items ≡ out.old.items ++ walk model.now.facts (subscripts_of eq) subscripts.now start) }
{
    match subscripts.split_first() {
        None => out.push(start)?,
        Some((subscript, more)) => {
            for position in 0..number_of_values(model, eq, *subscript) {
                push_walk(out, model, eq, more, moved(start, *subscript, position))?;
            }
        }
    }
    Ok(())
}

/// The indices that come from `start` when each of these subscripts in turn takes each of its values in the
/// instances of the equation. Fails only where memory runs out.
pub(crate) fn walked(
    alloc: Global,
    model: &ModelData,
    eq: u8,
    subscripts: &[Subscript],
    start: Index,
) -> Result<Vec<Index>, AllocError>
    requires { IsEquation eq }
    ensures { IfOk result (λ indices. indices.items ≡ walk model.now.facts (subscripts_of eq) subscripts.now start) }
{
    let mut out = Vec::new(alloc);
    push_walk(&mut out, model, eq, subscripts, start)?;
    Ok(out)
}
