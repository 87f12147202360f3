//! The row of an equation at an index.

ghost use Rattle.std.specs.Prelude.{◌≡◌, true, is_some, IfOk, IfErr, IfSome, not, ◌||◌};
ghost use Rattle.exact_num.specs.Range.{all_fit};
ghost use Rattle.row_core.specs.declared.place.Place.{Place};
ghost use Rattle.row_core.specs.EquationTerms.{IsWritten, equation_formed};
ghost use Rattle.row_core.specs.Stops.{IsStop};
ghost use Rattle.named_equations.specs.Instances.{is_index, name_at, stands_at, subscripts_of};
ghost use Rattle.named_equations.specs.RegionFactors.{AreRegionFactors, places_of};
ghost use Rattle.named_equations.specs.RowMeaning.{IsNamedRow};
ghost use Rattle.emission_rows.specs.Rows.{IsEmissionEquation, terms_at};

use crate::regions::{e6, e7, e8, e9, has_e8, has_e9};
use crate::technologies::{e1, e2, e3, e4, e5};
use discount_factors::Factors;
use equation_parts::index;
use equation_parts::ratios::is_not_zero;
use model_sets::param_numbers::EMISSION_ACTIVITY_RATIO;
use param_tables::ModelData;
use row_core::equation_numbers::{E1, E2, E3, E4, E5, E6, E7, E8, E9};
use row_core::{Index, Row, RowName, Stopped};
use std::alloc::Global;

/// The row of emissions with this number (35 E1 to 39 E5, 61 E6 to 64 E9) at the index: what its equation says, written
/// with whole numbers and without common divisor. A definition has its variable with a positive entry, an inequality is
/// its left side less its right side. `None` comes exactly where the equation has no instance: where the emission ratio
/// is 0 (E1), and where the limit is -1 (E8, E9); every other number is a limit, 0 and negative ones too.
///
/// `factors` has one entry for each region, in their order: made at the region's DiscountRate in billionths, for at
/// least the years from the first to the last, both included, and for lives of at least the longest OperationalLife
/// there, and all with the same number of decimal places, 6 or 9, which are then those of the row's factors.
///
/// Coefficients are made by multiplying and adding from left to right, those of one variable are added, and
/// denominators are cleared. `Width` with the row's name comes exactly where there is an instance and a number
/// that this forms lies outside the range from `-(2^127 - 1)` to `2^127 - 1`.
/// `Memory` comes where memory ran out.
pub fn rows_of(
    alloc: Global,
    model: &ModelData,
    factors: &[Factors],
    eq: u8,
    at: Index,
) -> Result<Option<Row>, Stopped>
    requires equation { IsEmissionEquation eq }
    requires factors { AreRegionFactors (places_of factors.now) model.now.facts factors.now }
    requires index { is_index model.now.facts (subscripts_of eq) at ≡ true }
    ensures instance { IfOk result (λ found. is_some found ≡ stands_at model.now.facts eq at) }
    ensures row { IfOk result (λ found. IfSome found (IsNamedRow (places_of factors.now) model.now.facts (name_at eq at) (terms_at (places_of factors.now) model.now.facts (name_at eq at)))) }
    ensures fits { IfOk result (λ found. IfSome found (λ row. all_fit (equation_formed (terms_at (places_of factors.now) model.now.facts (name_at eq at))) ≡ true)) }
    ensures stopped { IfErr result (IsStop (Place.Row (name_at eq at)) (not (stands_at model.now.facts eq at) || all_fit (equation_formed (terms_at (places_of factors.now) model.now.facts (name_at eq at))))) }
{
    if !stands(model, eq, at) {
        return Ok(None);
    }
    let name = RowName { eq, index: at };
    match row_of(alloc, model, factors, name) {
        Ok(row) => Ok(Some(row)),
        Err(stopped) => Err(stopped),
    }
}

/// Whether the equation has an instance at the index.
fn stands(model: &ModelData, eq: u8, at: Index) -> bool
    requires equation { IsEmissionEquation eq }
    requires index { is_index model.now.facts (subscripts_of eq) at ≡ true }
    ensures { result ≡ stands_at model.now.facts eq at }
{
    let index!(region r, tech t, emission e, mode m, year y) = at;
    match eq {
        E1 => is_not_zero(model, EMISSION_ACTIVITY_RATIO, &[r, t, e, m, y]),
        E8 => has_e8(model, r, e, y),
        E9 => has_e9(model, r, e),
        _ => true,
    }
}

/// The row of the equation of this name.
fn row_of(
    alloc: Global,
    model: &ModelData,
    factors: &[Factors],
    name: RowName,
) -> Result<Row, Stopped>
    requires equation { IsEmissionEquation name.eq }
    requires factors { AreRegionFactors (places_of factors.now) model.now.facts factors.now }
    requires index { is_index model.now.facts (subscripts_of name.eq) name.index ≡ true }
    ensures { IsWritten name (terms_at (places_of factors.now) model.now.facts name) result }
{
    match name.eq {
        E1 => e1(alloc, model, name),
        E2 => e2(alloc, model, name),
        E3 => e3(alloc, model, name),
        E4 => e4(alloc, model, name),
        E5 => e5(alloc, model, factors, name),
        E6 => e6(alloc, model, name),
        E7 => e7(alloc, model, name),
        E8 => e8(alloc, model, name),
        _ => e9(alloc, model, name),
    }
}
