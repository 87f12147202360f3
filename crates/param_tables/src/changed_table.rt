//! What a change does with the table of its parameter.

ghost use Rattle.std.specs.Prelude.{◌≡◌, ◌++◌, [], None, All, filter, length, IfErr, IfOk, IsSomeAnd, OnOk};
ghost use Rattle.std.specs.Option.{option_map, option_to_list};
ghost use Rattle.std.specs.List.{filter_map};
ghost use Rattle.std.specs.List.Sorted.{IsStrictlyIncreasing};
ghost use Rattle.mathprog_data.specs.WellFormed.{IsWithinLimit};
ghost use Rattle.model_sets.specs.Data.{indices_of};
ghost use Rattle.model_sets.specs.Members.{AreSets};
ghost use Rattle.model_sets.specs.Params.{IsParam, range_of, subscript_sets};
ghost use Rattle.param_tables.specs.Built.{IsValueIn};
ghost use Rattle.param_tables.specs.ChangeTold.{CanAllBeNamed, IsChangeFailDue};
ghost use Rattle.param_tables.specs.InTurn.{first_of};
ghost use Rattle.param_tables.specs.OpenTables.{HasValues, IsOpenTable, IsPlaceStopDue, fault_by, open_value, places_of_change, put_by, refusal_by, rounds_at, rule_of};
ghost use Rattle.param_tables.specs.declared.changed_table.PlaceStop.TheVariants as PlaceStop;

use crate::change::Change;
use crate::changed_value::value_by;
use crate::fault::{Cell, ChangeFail, refusal_at};
use crate::first_fault::PlaceFault;
use crate::indices::index_at;
use crate::named_places::named_places;
use crate::open_table::OpenTable;
use model_sets::{Sets, subscript_sets};
use std::alloc::{AllocError, Global};

/// What a change puts into a table.
#[derive(Drop)]
pub(crate) struct Puts {
    /// The places of which the value becomes another, each with that value, in billionths.
    pub(crate) values: Vec<(u64, i128)>,
    /// How many values were rounded to billionths.
    pub(crate) rounded: u64,
}

/// Why a change isn't made.
#[derive(Drop)]
pub(crate) enum PlaceStop {
    /// A value that it gives is refused.
    Fault(PlaceFault),
    /// There is no memory for it.
    Memory,
}

impl From<AllocError> for PlaceStop {
    ghost from_gives = { λ _ stop. stop ≡ PlaceStop.Memory };

    fn from(_: AllocError) -> PlaceStop {
        PlaceStop::Memory
    }
}

/// Adds what the change puts at the place, where that is another value than stands there, and answers whether it
/// was rounded.
fn add_put(
    puts: &mut Vec<(u64, i128)>,
    table: &OpenTable,
    change: &Change,
    place: u64,
) -> Result<bool, PlaceStop>
    requires ascending { IsStrictlyIncreasing table.now.table.places.items }
    requires long { length table.now.table.values.items ≡ length table.now.table.places.items }
    requires param { IsParam change.now.param }
    requires amount { IsWithinLimit change.now.amount }
    requires value { IsSomeAnd (open_value change.now.param table.now place) (IsValueIn (range_of change.now.param)) }
    ensures put { OnOk result (puts.new.items ≡ puts.old.items ++ option_to_list (put_by (rule_of change.now) table.now place)) }
    ensures rounded { IfOk result (λ rounded. rounded ≡ rounds_at (rule_of change.now) table.now place) }
    ensures accepted { OnOk result (fault_by (rule_of change.now) table.now place ≡ None) }
    ensures refused { IfErr result (IsPlaceStopDue (fault_by (rule_of change.now) table.now place)) }
{
    let Some(value) = table.value_at(change.param, place) else {
        return Ok(false);
    };
    let changed = match value_by(change, value) {
        Ok(changed) => changed,
        Err(fault) => return Err(PlaceStop::Fault(PlaceFault { place, fault })),
    };
    if changed.value != value && puts.push((place, changed.value)).is_err() {
        return Err(PlaceStop::Memory);
    }
    Ok(changed.is_rounded)
}

/// What the change puts into the table at these places. Refuses the first value that lies outside the
/// parameter's range, or outside those from -10^24 to 10^24. It may run out of memory.
pub(crate) fn puts_of(
    alloc: Global,
    table: &OpenTable,
    change: &Change,
    places: &[u64],
) -> Result<Puts, PlaceStop>
    requires ascending { IsStrictlyIncreasing table.now.table.places.items }
    requires long { length table.now.table.values.items ≡ length table.now.table.places.items }
    requires param { IsParam change.now.param }
    requires amount { IsWithinLimit change.now.amount }
    requires values { All (λ place. IsSomeAnd (open_value change.now.param table.now place) (IsValueIn (range_of change.now.param))) places.now }
    ensures puts { IfOk result (λ puts. puts.values.items ≡ filter_map (put_by (rule_of change.now) table.now) places.now) }
    ensures rounded { IfOk result (λ puts. puts.rounded ≡ length (filter (rounds_at (rule_of change.now) table.now) places.now)) }
    ensures accepted { OnOk result (filter_map (fault_by (rule_of change.now) table.now) places.now ≡ []) }
    ensures refused { IfErr result (IsPlaceStopDue (first_of (filter_map (fault_by (rule_of change.now) table.now) places.now))) }
{
    let mut values = Vec::new(alloc);
    let mut rounded = 0;
    for place in places {
        if add_put(&mut values, table, change, *place)? {
            rounded += 1;
        }
    }
    Ok(Puts { values, rounded })
}

/// What the change puts into the table of its parameter. Refuses as `OpenData::apply` does.
pub(crate) fn puts_for(
    alloc: Global,
    sets: &Sets,
    table: &OpenTable,
    change: &Change,
) -> Result<Puts, ChangeFail>
    requires sets { AreSets sets.now }
    requires param { IsParam change.now.param }
    requires named { CanAllBeNamed sets.now (subscript_sets change.now.param) change.now.members.items }
    requires amount { IsWithinLimit change.now.amount }
    requires shape { IsOpenTable (length (indices_of sets.now change.now.param)) table.now }
    requires values { HasValues change.now.param (length (indices_of sets.now change.now.param)) table.now }
    ensures puts { IfOk result (λ puts. puts.values.items ≡ filter_map (put_by (rule_of change.now) table.now) (places_of_change sets.now change.now)) }
    ensures rounded { IfOk result (λ puts. puts.rounded ≡ length (filter (rounds_at (rule_of change.now) table.now) (places_of_change sets.now change.now))) }
    ensures accepted { OnOk result (filter_map (fault_by (rule_of change.now) table.now) (places_of_change sets.now change.now) ≡ []) }
    ensures refused { IfErr result (IsChangeFailDue (option_map (refusal_by sets.now change.now.param) (first_of (filter_map (fault_by (rule_of change.now) table.now) (places_of_change sets.now change.now)))) sets.now) }
{
    let subscripts = subscript_sets(change.param);
    let places = named_places(alloc, sets, subscripts, change.members.as_slice())?;
    match puts_of(alloc, table, change, places.as_slice()) {
        Ok(puts) => Ok(puts),
        Err(PlaceStop::Fault(found)) => {
            let index = index_at(alloc, sets, subscripts, found.place)?;
            let cell = Cell {
                param: change.param,
                index,
            };
            Err(ChangeFail::Fault(refusal_at(found.fault, cell)))
        }
        Err(PlaceStop::Memory) => Err(ChangeFail::Memory),
    }
}
