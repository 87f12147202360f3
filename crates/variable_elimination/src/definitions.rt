//! Definitions without the variables that are defined before them.

ghost use Rattle.std.specs.Prelude.{◌≡◌, [], None, true, length, IfOk, IfErr, OnOk};
ghost use Rattle.exact_num.specs.Range.{all_fit};
ghost use Rattle.exact_num.specs.Steps.{first_wide};
ghost use Rattle.row_core.specs.declared.place.Place.TheVariants.{Expand};
ghost use Rattle.row_core.specs.Forms.{form_of};
ghost use Rattle.row_core.specs.Stops.{IsStop};
ghost use Rattle.written_method.specs.Definitions.{definitions_of, rows_of, AreTriangular};
ghost use Rattle.written_method.specs.Eliminated.{unscaled, expanded_all, definition_steps};
ghost use Rattle.written_method.specs.Expanded.{expanded_formed};
ghost use Rattle.variable_elimination.specs.Kept.{forms_in, AreDefinitions, AreReduced};
ghost use Rattle.variable_elimination.specs.SoFar.{IsFirst, HaveForms, IsPushed};

use crate::expanding::{Definitions, expand};
use row_core::{Place, Row, Stopped, Var};
use std::alloc::Global;
use std::collections::BTreeMap;

/// The definitions among rows, each without the variables that are defined before it. `Width` comes exactly where a
/// number that is formed doesn't fit, with the first row at which one doesn't; any other refusal means that memory ran
/// out.
pub(crate) fn expand_definitions(
    alloc: Global,
    rows: &[Row],
    defs: &[Option<Var>],
) -> Result<Definitions, Stopped>
    requires same { length defs.now ≡ length rows.now }
    requires triangular { AreTriangular (definitions_of rows.now defs.now) }
    ensures made { IfOk result (λ out. HaveForms out (expanded_all [] (definitions_of rows.now defs.now))) }
    ensures usable { IfOk result AreDefinitions }
    ensures reduced { IfOk result (AreReduced (rows_of (definitions_of rows.now defs.now))) }
    ensures fits { OnOk result (first_wide (definition_steps [] (definitions_of rows.now defs.now)) ≡ None) }
    ensures stopped { IfErr result (IsFirst (first_wide (definition_steps [] (definitions_of rows.now defs.now)))) }
{
    let mut definitions = BTreeMap::new(alloc);
    for (i, row) in rows.iter().enumerate() {
        if let Some(variable) = defs[i] {
            push_definition(alloc, row, variable, &mut definitions)?;
        }
    }
    Ok(definitions)
}

/// Adds the definition of a variable, without the variables that are defined already.
fn push_definition(
    alloc: Global,
    row: &Row,
    variable: Var,
    definitions: &mut Definitions,
) -> Result<(), Stopped>
    requires { AreDefinitions definitions.old }
    ensures pushed { OnOk result (IsPushed row.now variable definitions.old definitions.new) }
    ensures fits { OnOk result (all_fit (expanded_formed (forms_in definitions.old) (unscaled (form_of row.now))) ≡ true) }
    ensures stopped { IfErr result (IsStop (Expand row.now.name) (all_fit (expanded_formed (forms_in definitions.old) (unscaled (form_of row.now))))) }
{
    let (made, _) = expand(alloc, Place::Expand(row.name), row, None, definitions)?;
    let _ = definitions.insert(variable, made)?;
    Ok(())
}
