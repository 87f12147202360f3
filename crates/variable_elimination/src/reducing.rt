//! The rows that define nothing, without the defined variables.

ghost use Rattle.std.specs.Prelude.{◌≡◌, None, List, true, length, IfOk, IfErr, OnOk, pos};
ghost use Rattle.exact_num.specs.Range.{all_fit};
ghost use Rattle.exact_num.specs.Steps.{first_wide};
ghost use Rattle.row_core.specs.declared.Row.{Row};
ghost use Rattle.row_core.specs.declared.place.Place.TheVariants.{Expand};
ghost use Rattle.row_core.specs.Stops.{IsStop};
ghost use Rattle.written_method.specs.Definitions.{others_of};
ghost use Rattle.written_method.specs.Eliminated.{at_first, reduced_rows, row_steps};
ghost use Rattle.written_method.specs.Expanded.{expanded_formed};
ghost use Rattle.variable_elimination.specs.Kept.{forms_in, AreDefinitions, AreReduced};
ghost use Rattle.variable_elimination.specs.ReducedRows.{stays, AreThese, AreReductions, IsNextRow};
ghost use Rattle.variable_elimination.specs.SoFar.{IsFirst};

use crate::expanding::{Definitions, expand};
use exact_num::Frac;
use row_core::{Place, Row, Sense, Stopped, Var, fraction};
use std::alloc::Global;

/// The rows that define nothing, without the defined variables, and for each the fraction by which its named row was
/// multiplied. A row without entries that is true of 0 is dropped. `Width` comes exactly where a number that is formed
/// doesn't fit, with the first row at which one doesn't; any other refusal means that memory ran out.
pub(crate) fn reduce_rows(
    alloc: Global,
    rows: &[Row],
    defs: &[Option<Var>],
    definitions: &Definitions,
) -> Result<(Vec<Row>, Vec<Frac>), Stopped>
    requires same { length defs.now ≡ length rows.now }
    requires usable { AreDefinitions definitions.now }
    ensures made { IfOk result (λ out. AreThese (reduced_rows (forms_in definitions.now) (others_of rows.now defs.now)) out.0.items out.1.items) }
    ensures reductions { (named : List Row) → AreReduced named definitions.now → IfOk result (λ out. AreReductions named (others_of rows.now defs.now) out.0.items out.1.items) }
    ensures fits { OnOk result (first_wide (row_steps (forms_in definitions.now) (others_of rows.now defs.now)) ≡ None) }
    ensures stopped { IfErr result (IsFirst (first_wide (row_steps (forms_in definitions.now) (others_of rows.now defs.now)))) }
{
    let mut kept = Vec::new(alloc);
    let mut scales = Vec::new(alloc);
    for (i, row) in rows.iter().enumerate() {
        match defs[i] {
            Some(_) => {}
            None => push_reduced(alloc, row, definitions, &mut kept, &mut scales)?,
        }
    }
    Ok((kept, scales))
}

/// Appends a row without the defined variables, and its scale, unless it is dropped.
fn push_reduced(
    alloc: Global,
    row: &Row,
    definitions: &Definitions,
    kept: &mut Vec<Row>,
    scales: &mut Vec<Frac>,
) -> Result<(), Stopped>
    requires { AreDefinitions definitions.now }
    ensures pushed { OnOk result (IsNextRow definitions.now row.now kept.old.items kept.new.items scales.old.items scales.new.items) }
    ensures fits { OnOk result (all_fit (expanded_formed (forms_in definitions.now) (at_first row.now)) ≡ true) }
    ensures stopped { IfErr result (IsStop (Expand row.now.name) (all_fit (expanded_formed (forms_in definitions.now) (at_first row.now)))) }
{
    let (made, scale) = expand(
        alloc,
        Place::Expand(row.name),
        row,
        Some(fraction(1)),
        definitions,
    )?;
    let scale = match scale {
        Some(scale) => scale,
        None => unreachable!(),
    };
    if has_to_stay(&made) {
        kept.push(made)?;
        scales.push(scale)?;
    }
    Ok(())
}

/// Whether a row has entries, or is false of 0.
fn has_to_stay(row: &Row) -> bool
    ensures { result ≡ stays row.now }
{
    if !row.entries.is_empty() {
        return true;
    }
    let holds = match row.sense {
        Sense::Least => row.rhs <= 0,
        Sense::Equal => row.rhs == 0,
        Sense::Most => row.rhs >= 0,
    };
    !holds
}
