//! The values of one statement, by the places of their indices.

ghost use Rattle.std.specs.Prelude.{◌≡◌, ℕ, [], Some, nat_eq, IfErr, IfOk, OnOk, All, if◌then◌else◌, OnErr};
ghost use Rattle.std.specs.BTreeMap.{get};
ghost use Rattle.std.specs.Ordering.{nat_cmp};
ghost use Rattle.model_sets.specs.Members.{AreSets};
ghost use Rattle.model_sets.specs.Params.{IsParam};
ghost use Rattle.param_tables.specs.InTurn.{first_of, in_turn};
ghost use Rattle.param_tables.specs.Refusals.{value_refusal};
ghost use Rattle.param_tables.specs.Tables.{AreGiven};
ghost use Rattle.param_tables.specs.Stops.{IsStopDue};
ghost use Rattle.mathprog_data.specs.WellFormed.{IsValueOf};

use crate::fault::{BuildFault, Stop};
use crate::indices::place_of_value;
use mathprog_data::Values;
use model_sets::{Sets, subscript_sets};
use std::alloc::{AllocError, Global};
use std::collections::BTreeMap;

/// Keeps the value at the place.
pub(crate) fn keep(
    values: &mut BTreeMap<u64, i128>,
    place: u64,
    value: &i128,
) -> Result<(), AllocError>
    ensures kept { OnOk result ((q : ℕ) → get nat_cmp values.new q ≡ (if nat_eq q place then Some value.now else get nat_cmp values.old q)) }
    ensures unchanged { OnErr result (values.new.entries ≡ values.old.entries) }
{
    values.insert(place, *value)?;
    Ok(())
}

/// The values, in billionths, by the places of their indices among those of the parameter. Refuses the
/// first value, in the order of the text, whose index has a name that is no member, or whose index was
/// given before. It may run out of memory.
pub(crate) fn placed_values(
    alloc: Global,
    sets: &Sets,
    param: u8,
    given: &Values,
) -> Result<BTreeMap<u64, i128>, Stop>
    requires sets { AreSets sets.now }
    requires listed { IsParam param }
    requires indices { All (IsValueOf param) given.now }
    ensures values { IfOk result (λ values. AreGiven sets.now param given.now (get nat_cmp values)) }
    ensures accepted { OnOk result (in_turn (value_refusal sets.now param) given.now ≡ []) }
    ensures refused { IfErr result (IsStopDue (first_of (in_turn (value_refusal sets.now param) given.now)) sets.now) }
{
    let subscripts = subscript_sets(param);
    let mut values = BTreeMap::new(alloc);
    for number in 0..given.len() {
        let Some(place) = place_of_value(sets, subscripts, given, number) else {
            return Err(Stop::Fault(BuildFault::UnknownMember(given.at(number))));
        };
        if values.contains_key(&place) {
            return Err(Stop::Fault(BuildFault::ValueTwice(given.at(number))));
        }
        keep(&mut values, place, &given.value(number))?;
    }
    Ok(values)
}
