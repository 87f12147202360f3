//! Limits on capacity, on new capacity and on activity: a variable stands to a value of the data.

ghost use Rattle.std.specs.Prelude.{◌≡◌, true};
ghost use Rattle.row_core.specs.EquationTerms.{IsWritten};
ghost use Rattle.named_equations.specs.Instances.{is_index, stands_at, subscripts_of};
ghost use Rattle.limit_rows.specs.Rows.{IsLimitNumber, IsLimitOf, terms_at};

use equation_parts::limits::{is_limit, is_positive};
use equation_parts::parameters::value;
use equation_parts::shapes::is_limited;
use equation_parts::{index, variable};
use exact_num::Frac;
use model_sets::param_numbers::{
    TOTAL_ANNUAL_MAX_CAPACITY, TOTAL_ANNUAL_MAX_CAPACITY_INVESTMENT, TOTAL_ANNUAL_MIN_CAPACITY,
    TOTAL_ANNUAL_MIN_CAPACITY_INVESTMENT, TOTAL_TECHNOLOGY_ANNUAL_ACTIVITY_LOWER_LIMIT,
    TOTAL_TECHNOLOGY_ANNUAL_ACTIVITY_UPPER_LIMIT,
    TOTAL_TECHNOLOGY_MODEL_PERIOD_ACTIVITY_LOWER_LIMIT,
    TOTAL_TECHNOLOGY_MODEL_PERIOD_ACTIVITY_UPPER_LIMIT,
};
use param_tables::ModelData;
use row_core::Sense::{Least, Most};
use row_core::equation_numbers::{AAC2, AAC3, NCC1, NCC2, TAC2, TCC1, TCC2};
use row_core::kind_numbers::{
    NEW_CAPACITY, TOTAL_CAPACITY_ANNUAL, TOTAL_TECHNOLOGY_ANNUAL_ACTIVITY,
    TOTAL_TECHNOLOGY_MODEL_PERIOD_ACTIVITY,
};
use row_core::{Index, Row, RowName, Sense, Stopped, Var};
use std::alloc::Global;

/// Whether the limit of this number is set: a greatest value in a year is one unless it is -1, so 0 is; a least value is one
/// above 0, and so is a greatest value of the model period.
pub(crate) fn is_set(model: &ModelData, eq: u8, at: Index) -> bool
    requires limit { IsLimitNumber eq }
    requires index { is_index model.now.facts (subscripts_of eq) at ≡ true }
    ensures { result ≡ stands_at model.now.facts eq at }
{
    let index!(region r, tech t, year y) = at;
    match eq {
        TCC1 => is_limit(model.at(TOTAL_ANNUAL_MAX_CAPACITY, &[r, t, y])),
        TCC2 => is_positive(model.at(TOTAL_ANNUAL_MIN_CAPACITY, &[r, t, y])),
        NCC1 => is_limit(model.at(TOTAL_ANNUAL_MAX_CAPACITY_INVESTMENT, &[r, t, y])),
        NCC2 => is_positive(model.at(TOTAL_ANNUAL_MIN_CAPACITY_INVESTMENT, &[r, t, y])),
        AAC2 => is_limit(model.at(TOTAL_TECHNOLOGY_ANNUAL_ACTIVITY_UPPER_LIMIT, &[r, t, y])),
        AAC3 => is_positive(model.at(TOTAL_TECHNOLOGY_ANNUAL_ACTIVITY_LOWER_LIMIT, &[r, t, y])),
        TAC2 => is_positive(model.at(TOTAL_TECHNOLOGY_MODEL_PERIOD_ACTIVITY_UPPER_LIMIT, &[r, t])),
        _ => is_positive(model.at(TOTAL_TECHNOLOGY_MODEL_PERIOD_ACTIVITY_LOWER_LIMIT, &[r, t])),
    }
}

/// The row of a limit: the variable stands in the limit's sense to the value of the data.
pub(crate) fn limit_row(alloc: Global, model: &ModelData, name: RowName) -> Result<Row, Stopped>
    requires limit { IsLimitNumber name.eq }
    requires index { is_index model.now.facts (subscripts_of name.eq) name.index ≡ true }
    ensures { IsWritten name (terms_at model.now.facts name) result }
{
    let (variable, sense, value) = limit_of(model, name);
    is_limited(alloc, name, variable, sense, value)
}

/// What the limit of this name limits, in which sense, and the value.
fn limit_of(model: &ModelData, name: RowName) -> (Var, Sense, Option<Frac>)
    requires limit { IsLimitNumber name.eq }
    requires index { is_index model.now.facts (subscripts_of name.eq) name.index ≡ true }
    ensures { IsLimitOf (terms_at model.now.facts name) result }
{
    let index!(region r, tech t, year y) = name.index;
    let capacity = variable!(TOTAL_CAPACITY_ANNUAL; region r, tech t, year y);
    let built = variable!(NEW_CAPACITY; region r, tech t, year y);
    let activity = variable!(TOTAL_TECHNOLOGY_ANNUAL_ACTIVITY; region r, tech t, year y);
    let period = variable!(TOTAL_TECHNOLOGY_MODEL_PERIOD_ACTIVITY; region r, tech t);
    match name.eq {
        TCC1 => (
            capacity,
            Most,
            value(model, TOTAL_ANNUAL_MAX_CAPACITY, &[r, t, y]),
        ),
        TCC2 => (
            capacity,
            Least,
            value(model, TOTAL_ANNUAL_MIN_CAPACITY, &[r, t, y]),
        ),
        NCC1 => (
            built,
            Most,
            value(model, TOTAL_ANNUAL_MAX_CAPACITY_INVESTMENT, &[r, t, y]),
        ),
        NCC2 => (
            built,
            Least,
            value(model, TOTAL_ANNUAL_MIN_CAPACITY_INVESTMENT, &[r, t, y]),
        ),
        AAC2 => (
            activity,
            Most,
            value(
                model,
                TOTAL_TECHNOLOGY_ANNUAL_ACTIVITY_UPPER_LIMIT,
                &[r, t, y],
            ),
        ),
        AAC3 => (
            activity,
            Least,
            value(
                model,
                TOTAL_TECHNOLOGY_ANNUAL_ACTIVITY_LOWER_LIMIT,
                &[r, t, y],
            ),
        ),
        TAC2 => (
            period,
            Most,
            value(
                model,
                TOTAL_TECHNOLOGY_MODEL_PERIOD_ACTIVITY_UPPER_LIMIT,
                &[r, t],
            ),
        ),
        _ => (
            period,
            Least,
            value(
                model,
                TOTAL_TECHNOLOGY_MODEL_PERIOD_ACTIVITY_LOWER_LIMIT,
                &[r, t],
            ),
        ),
    }
}
