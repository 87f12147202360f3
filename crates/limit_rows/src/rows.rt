//! The row of an equation at an index.

ghost use Rattle.std.specs.Prelude.{◌≡◌, ℕ, true, is_some, IfOk, IfErr, IfSome, not, ◌||◌};
ghost use Rattle.exact_num.specs.Range.{all_fit};
ghost use Rattle.row_core.specs.declared.place.Place.{Place};
ghost use Rattle.row_core.specs.EquationTerms.{IsWritten, equation_formed};
ghost use Rattle.row_core.specs.Stops.{IsStop};
ghost use Rattle.named_equations.specs.Instances.{is_index, name_at, stands_at, subscripts_of};
ghost use Rattle.named_equations.specs.RowMeaning.{IsNamedRow};
ghost use Rattle.limit_rows.specs.Rows.{IsLimitEquation, terms_at};

use crate::activity::{aac1, tac1};
use crate::limits::{is_set, limit_row};
use crate::renewable_target::{re1, re2, re3, re4, re5};
use crate::reserve_margin::{rm1, rm2, rm3};
use equation_parts::index;
use equation_parts::ratios::is_not_zero_in_some_mode;
use model_sets::param_numbers::{INPUT_ACTIVITY_RATIO, OUTPUT_ACTIVITY_RATIO};
use param_tables::ModelData;
use row_core::equation_numbers::{AAC1, RE1, RE2, RE3, RE4, RE5, RM1, RM2, RM3, TAC1, TAC3, TCC1};
use row_core::{Index, Row, RowName, Stopped};
use std::alloc::Global;

/// The row of a limit, of the reserve margin or of the renewable target with this number (43 TCC1 to 52 TAC3, 53 RM1
/// to 55 RM3, 56 RE1 to 60 RE5) at the index: what its equation says, written with whole numbers and without common
/// divisor. A definition has its variable with a positive entry, an inequality is its left side less its right side.
/// `None` comes exactly where the equation has no instance: at a greatest value of -1 (TCC1, NCC1, AAC2), at one of the
/// model period that isn't above 0 (TAC2), at a least value of 0 (TCC2, NCC2, AAC3, TAC3), and where the technology
/// doesn't make the fuel (RE1) or take it (RE5).
///
/// Coefficients are made by multiplying and adding from left to right, those of one variable are added, and
/// denominators are cleared. `Width` with the row's name comes exactly where there is an instance and a number
/// that this forms lies outside the range from `-(2^127 - 1)` to `2^127 - 1`.
/// `Memory` comes where memory ran out.
pub fn rows_of(alloc: Global, model: &ModelData, eq: u8, at: Index) -> Result<Option<Row>, Stopped>
    requires equation { IsLimitEquation eq }
    requires index { is_index model.now.facts (subscripts_of eq) at ≡ true }
    ensures instance { IfOk result (λ found. is_some found ≡ stands_at model.now.facts eq at) }
    ensures row { (places : ℕ) → IfOk result (λ found. IfSome found (IsNamedRow places model.now.facts (name_at eq at) (terms_at model.now.facts (name_at eq at)))) }
    ensures fits { IfOk result (λ found. IfSome found (λ row. all_fit (equation_formed (terms_at model.now.facts (name_at eq at))) ≡ true)) }
    ensures stopped { IfErr result (IsStop (Place.Row (name_at eq at)) (not (stands_at model.now.facts eq at) || all_fit (equation_formed (terms_at model.now.facts (name_at eq at))))) }
{
    if !stands(model, eq, at) {
        return Ok(None);
    }
    let name = RowName { eq, index: at };
    match row_of(alloc, model, name) {
        Ok(row) => Ok(Some(row)),
        Err(stopped) => Err(stopped),
    }
}

/// Whether the equation has an instance at the index.
fn stands(model: &ModelData, eq: u8, at: Index) -> bool
    requires equation { IsLimitEquation eq }
    requires index { is_index model.now.facts (subscripts_of eq) at ≡ true }
    ensures { result ≡ stands_at model.now.facts eq at }
{
    let index!(region r, tech t, fuel f, year y) = at;
    match eq {
        AAC1 => true,
        TAC1 => true,
        TCC1..=TAC3 => is_set(model, eq, at),
        RE1 => is_not_zero_in_some_mode(model, OUTPUT_ACTIVITY_RATIO, r, t, f, y),
        RE5 => is_not_zero_in_some_mode(model, INPUT_ACTIVITY_RATIO, r, t, f, y),
        _ => true,
    }
}

/// The row of the equation of this name.
fn row_of(alloc: Global, model: &ModelData, name: RowName) -> Result<Row, Stopped>
    requires equation { IsLimitEquation name.eq }
    requires index { is_index model.now.facts (subscripts_of name.eq) name.index ≡ true }
    ensures { IsWritten name (terms_at model.now.facts name) result }
{
    match name.eq {
        AAC1 => aac1(alloc, model, name),
        TAC1 => tac1(alloc, model, name),
        TCC1..=TAC3 => limit_row(alloc, model, name),
        RM1 => rm1(alloc, model, name),
        RM2 => rm2(alloc, model, name),
        RM3 => rm3(alloc, model, name),
        RE1 => re1(alloc, model, name),
        RE2 => re2(alloc, model, name),
        RE3 => re3(alloc, model, name),
        RE4 => re4(alloc, model, name),
        _ => re5(alloc, model, name),
    }
}
