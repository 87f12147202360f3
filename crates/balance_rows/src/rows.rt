//! The row of an equation at an index.

ghost use Rattle.std.specs.Prelude.{◌≡◌, ℕ, true, is_some, IfOk, IfErr, IfSome, ◌<ℤ◌, pos, not, ◌||◌};
ghost use Rattle.exact_num.specs.Range.{all_fit};
ghost use Rattle.row_core.specs.declared.equation_numbers.TheConstants.{EQ_SPECIFIED_DEMAND};
ghost use Rattle.row_core.specs.declared.place.Place.{Place};
ghost use Rattle.row_core.specs.EquationTerms.{IsWritten, equation_formed};
ghost use Rattle.row_core.specs.Stops.{IsStop};
ghost use Rattle.named_equations.specs.Instances.{is_index, name_at, stands_at, subscripts_of};
ghost use Rattle.named_equations.specs.Parameters.{year_split};
ghost use Rattle.named_equations.specs.RowMeaning.{IsNamedRow};
ghost use Rattle.balance_rows.specs.Rows.{IsBalanceEquation, terms_at};

use crate::accounting::{acc1, acc2, acc3};
use crate::demand::eq_specified_demand;
use crate::flows::Flow::{Made, Taken};
use crate::production::{all_flow, mode_flow, technology_flow};
use crate::timeslices::{eba10, eba11, fuel_in_slice};
use crate::years::{ebb3, ebb4, fuel_in_year};
use equation_parts::index;
use equation_parts::ratios::{is_not_zero, is_not_zero_in_some_mode};
use model_sets::param_numbers::{INPUT_ACTIVITY_RATIO, OUTPUT_ACTIVITY_RATIO};
use param_tables::ModelData;
use row_core::equation_numbers::{
    ACC1, ACC2, EBA1, EBA2, EBA3, EBA4, EBA5, EBA6, EBA7, EBA8, EBA9, EBA10, EBA11, EBB1, EBB2,
    EBB3, EBB4, EQ_SPECIFIED_DEMAND,
};
use row_core::kind_numbers::{
    DEMAND, PRODUCTION, PRODUCTION_ANNUAL, RATE_OF_DEMAND, RATE_OF_PRODUCTION, RATE_OF_USE, USE,
    USE_ANNUAL,
};
use row_core::{Index, Row, RowName, Stopped};
use std::alloc::Global;

/// The row of demand, energy balance or accounting with this number (1 EQ_SpecifiedDemand, 7 EBa1 to 21 EBb4, 22
/// Acc1 to 24 Acc3) at the index: what its equation says, written with whole numbers and without common divisor. A
/// definition has its variable with a positive entry, an inequality is its left side less its right side. `None`
/// comes exactly where the equation has no instance: at EBa1, EBa2 and Acc1 where the technology doesn't make the
/// fuel, at EBa4, EBa5 and Acc2 where it doesn't take it.
///
/// Coefficients are made by multiplying and adding from left to right, those of one variable are added, and
/// denominators are cleared. `Width` with the row's name comes exactly where there is an instance and a number
/// that this forms lies outside the range from `-(2^127 - 1)` to `2^127 - 1`.
/// `Memory` comes where memory ran out.
pub fn rows_of(alloc: Global, model: &ModelData, eq: u8, at: Index) -> Result<Option<Row>, Stopped>
    requires equation { IsBalanceEquation eq }
    requires index { is_index model.now.facts (subscripts_of eq) at ≡ true }
    ensures instance { IfOk result (λ found. is_some found ≡ stands_at model.now.facts eq at) }
    ensures row { (places : ℕ) → IfOk result (λ found. IfSome found (IsNamedRow places model.now.facts (name_at eq at) (terms_at model.now.facts (name_at eq at)))) }
    ensures fits { IfOk result (λ found. IfSome found (λ row. all_fit (equation_formed (terms_at model.now.facts (name_at eq at))) ≡ true)) }
    ensures stopped { IfErr result (IsStop (Place.Row (name_at eq at)) (not (stands_at model.now.facts eq at) || all_fit (equation_formed (terms_at model.now.facts (name_at eq at))))) }
{
    if !stands(model, eq, at) {
        return Ok(None);
    }
    let name = RowName { eq, index: at };
    match row_of(alloc, model, name) {
        Ok(row) => Ok(Some(row)),
        Err(stopped) => Err(stopped),
    }
}

/// Whether the equation has an instance at the index.
fn stands(model: &ModelData, eq: u8, at: Index) -> bool
    requires equation { IsBalanceEquation eq }
    requires index { is_index model.now.facts (subscripts_of eq) at ≡ true }
    ensures { result ≡ stands_at model.now.facts eq at }
{
    let index!(region r, tech t, fuel f, mode m, year y) = at;
    match eq {
        EBA1 => is_not_zero(model, OUTPUT_ACTIVITY_RATIO, &[r, t, f, m, y]),
        EBA4 => is_not_zero(model, INPUT_ACTIVITY_RATIO, &[r, t, f, m, y]),
        EBA2 | ACC1 => is_not_zero_in_some_mode(model, OUTPUT_ACTIVITY_RATIO, r, t, f, y),
        EBA5 | ACC2 => is_not_zero_in_some_mode(model, INPUT_ACTIVITY_RATIO, r, t, f, y),
        _ => true,
    }
}

/// The row of the equation of this name.
fn row_of(alloc: Global, model: &ModelData, name: RowName) -> Result<Row, Stopped>
    requires equation { IsBalanceEquation name.eq }
    requires index { is_index model.now.facts (subscripts_of name.eq) name.index ≡ true }
    ensures written { IsWritten name (terms_at model.now.facts name) result }
    ensures positive { name.eq ≡ EQ_SPECIFIED_DEMAND → pos 0 <ℤ year_split model.now.facts name.index.slice name.index.year }
{
    match name.eq {
        EQ_SPECIFIED_DEMAND => eq_specified_demand(alloc, model, name),
        EBA1 => mode_flow(alloc, model, name, Made),
        EBA2 => technology_flow(alloc, model, name, Made),
        EBA3 => all_flow(alloc, model, name, Made),
        EBA4 => mode_flow(alloc, model, name, Taken),
        EBA5 => technology_flow(alloc, model, name, Taken),
        EBA6 => all_flow(alloc, model, name, Taken),
        EBA7 => fuel_in_slice(alloc, model, name, PRODUCTION, RATE_OF_PRODUCTION),
        EBA8 => fuel_in_slice(alloc, model, name, USE, RATE_OF_USE),
        EBA9 => fuel_in_slice(alloc, model, name, DEMAND, RATE_OF_DEMAND),
        EBA10 => eba10(alloc, model, name),
        EBA11 => eba11(alloc, model, name),
        EBB1 => fuel_in_year(alloc, model, name, PRODUCTION_ANNUAL, PRODUCTION),
        EBB2 => fuel_in_year(alloc, model, name, USE_ANNUAL, USE),
        EBB3 => ebb3(alloc, model, name),
        EBB4 => ebb4(alloc, model, name),
        ACC1 => acc1(alloc, model, name),
        ACC2 => acc2(alloc, model, name),
        _ => acc3(alloc, model, name),
    }
}
