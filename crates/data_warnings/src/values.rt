//! The numbers of the data, in billionths, and how many members their sets have.

ghost use Rattle.std.specs.Prelude.{◌≡◌, ◌<◌, ◌≤◌};
ghost use Rattle.model_sets.specs.Data.{IsUsedParam};
ghost use Rattle.model_sets.specs.Names.{set_count, year};
ghost use Rattle.mathprog_data.specs.WellFormed.{IsWithinLimit};
ghost use Rattle.param_tables.specs.Positions.{IsIndexOf};
ghost use Rattle.data_warnings.specs.Values.{count, is_by_default, name, value, year_number};

use crate::rules::NO_SET;
use model_sets::Sets;
use param_tables::ModelData;

/// One, in billionths.
const BILLION: i128 = 1_000_000_000;

/// The value of the parameter at the positions, in billionths.
pub(crate) fn value(model: &ModelData, param: u8, index: &[u16]) -> i128
    requires used { IsUsedParam model.now.facts param }
    requires index { IsIndexOf model.now.facts.sets param index.now }
    ensures value { result ≡ value model.now.facts param index.now }
    ensures within { IsWithinLimit result }
{
    let value = model.at(param, index);
    value.num * (BILLION / value.den)
}

/// Whether the parameter has this value at the positions, in billionths, and no statement gives it.
pub(crate) fn is_by_default(model: &ModelData, param: u8, index: &[u16], default: i128) -> bool
    requires used { IsUsedParam model.now.facts param }
    requires index { IsIndexOf model.now.facts.sets param index.now }
    ensures { result ≡ is_by_default model.now.facts param index.now default }
{
    !model.is_given(param, index) && value(model, param, index) == default
}

/// How many positions there are in the set, and one in no set.
pub(crate) fn count(model: &ModelData, set: u8) -> u16
    requires { set ≤ set_count }
    ensures { result ≡ count model.now.facts set }
{
    if set == NO_SET {
        1
    } else {
        model.sets().count(set)
    }
}

/// The number of the year at the position, from 1 to 9999.
pub(crate) fn year_number(model: &ModelData, y: u16) -> u16
    requires { y < count model.now.facts year }
    ensures number { result ≡ year_number model.now.facts y }
    ensures most { result ≤ 9999 }
{
    model.sets().year(y)
}

/// The name of the member of the set at the position, or nothing where there is none.
pub(crate) fn name_of(sets: &Sets, set: u8, i: u16) -> &[u8]
    requires { set ≤ set_count }
    ensures { result.now ≡ name sets.now set i }
{
    if set != NO_SET && i < sets.count(set) {
        sets.name_of(set, i)
    } else {
        b""
    }
}
