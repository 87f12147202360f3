//! A row without its defined variables.

ghost use Rattle.std.specs.Prelude.{◌≡◌, ◌<◌, ℕ, pos, ◌<ℤ◌, ◌++◌, Some, None, true, length, slice_index_or, List, IfOk, IfErr, OnOk, option_copied};
ghost use Rattle.exact_num.specs.Range.{all_fit};
ghost use Rattle.row_core.specs.declared.Row.{Row};
ghost use Rattle.row_core.specs.declared.Sense.TheVariants.{Equal};
ghost use Rattle.row_core.specs.declared.place.Stopped.TheVariants.{Memory};
ghost use Rattle.row_core.specs.Forms.{form_of};
ghost use Rattle.row_core.specs.Rows.{number_at};
ghost use Rattle.row_core.specs.Stops.{IsStop};
ghost use Rattle.written_method.specs.Expanded.{without, without_formed, scaled_by, scaled_by_formed, expanded, expanded_formed};
ghost use Rattle.exact_num.specs.Value.{value_of};
ghost use Rattle.variable_elimination.specs.Expansions.{IsCopy, IsExpansion, scale_value, scaled_of};
ghost use Rattle.variable_elimination.specs.Kept.{forms_in, AreDefinitions, AreReduced};
ghost use Rattle.variable_elimination.specs.Reductions.{IsReducedBy, IsReducedOver};

use exact_num::{Frac, mul};
use row_core::{Place, Row, Stopped, Var, combine};
use std::alloc::Global;
use std::collections::BTreeMap;

/// Expanded definitions by the variables that they define: equations without other defined variables.
pub(crate) type Definitions = BTreeMap<Var, Row>;

/// Removes all defined variables from a row, in ascending order of variables, by their expanded definitions. A scale that
/// is given is multiplied by the fraction by which the row is multiplied. `Width(place)` comes exactly where a number that
/// is formed doesn't fit; any other refusal means that memory ran out.
pub(crate) fn expand(
    alloc: Global,
    place: Place,
    row: &Row,
    scale: Option<Frac>,
    definitions: &Definitions,
) -> Result<(Row, Option<Frac>), Stopped>
    requires { AreDefinitions definitions.now }
    ensures made { IfOk result (IsExpansion row.now (expanded (forms_in definitions.now) (scaled_of row.now scale))) }
    ensures fits { OnOk result (all_fit (expanded_formed (forms_in definitions.now) (scaled_of row.now scale)) ≡ true) }
    ensures stopped { IfErr result (IsStop place (all_fit (expanded_formed (forms_in definitions.now) (scaled_of row.now scale)))) }
    ensures reduced { (named : List Row) (first : Row) → AreReduced named definitions.now → IsReducedOver named first (scale_value scale) row.now
        → IfOk result (λ made. IsReducedOver named first (scale_value made.1) made.0) }
{
    let mut made = copy_of(alloc, row)?;
    let mut scale = scale;
    for entry in &row.entries {
        if let Some(definition) = definitions.get(&entry.0) {
            let (next, part) = remove(alloc, place, &made, scale, definition, entry.0)?;
            made = next;
            scale = part;
        }
    }
    Ok((made, scale))
}

/// Removes one variable, and multiplies the scale that is kept.
fn remove(
    alloc: Global,
    place: Place,
    row: &Row,
    scale: Option<Frac>,
    definition: &Row,
    variable: Var,
) -> Result<(Row, Option<Frac>), Stopped>
    requires defines { definition.now.sense ≡ Equal }
    requires positive { pos 0 <ℤ number_at definition.now.entries.items variable }
    ensures made { IfOk result (IsExpansion row.now (without (Some (form_of definition.now)) variable (scaled_of row.now scale))) }
    ensures fits { OnOk result (all_fit (without_formed (Some (form_of definition.now)) variable (scaled_of row.now scale)) ≡ true) }
    ensures stopped { IfErr result (IsStop place (all_fit (without_formed (Some (form_of definition.now)) variable (scaled_of row.now scale)))) }
    ensures reduced { (named : List Row) (first : Row) (i : ℕ) → IsReducedOver named first (scale_value scale) row.now → i < length named
        → IsReducedBy named (slice_index_or named i definition.now) definition.now → IfOk result (λ made. IsReducedOver named first (scale_value made.1) made.0) }
{
    let (next, part) = combine(alloc, row, definition, variable, place)?;
    let scale = multiplied(place, scale, part)?;
    Ok((next, scale))
}

/// The scale that is kept, times one more fraction.
fn multiplied(place: Place, scale: Option<Frac>, by: Frac) -> Result<Option<Frac>, Stopped>
    ensures made { IfOk result (λ made. scale_value made ≡ scaled_by (scale_value scale) (value_of by)) }
    ensures fits { OnOk result (all_fit (scaled_by_formed (scale_value scale) (value_of by)) ≡ true) }
    ensures stopped { IfErr result (IsStop place (all_fit (scaled_by_formed (scale_value scale) (value_of by)))) }
{
    let Some(scale) = scale else {
        return Ok(None);
    };
    match mul(scale, by) {
        Ok(scale) => Ok(Some(scale)),
        Err(_) => Err(Stopped::Width(place)),
    }
}

/// A row's copy.
pub(crate) fn copy_of(alloc: Global, row: &Row) -> Result<Row, Stopped>
    ensures same { IfOk result (IsCopy row.now) }
    ensures memory { IfErr result (λ e. e ≡ Memory) }
{
    let mut entries = Vec::with_capacity(alloc, row.entries.len())?;
    entries.extend_from_slice(&row.entries)?;
    Ok(Row {
        name: row.name,
        sense: row.sense,
        entries,
        rhs: row.rhs,
    })
}
