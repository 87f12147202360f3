//! The row of an equation at an index.

ghost use Rattle.std.specs.Prelude.{◌≡◌, true, is_some, IfOk, IfErr, IfSome, not, ◌||◌};
ghost use Rattle.exact_num.specs.Range.{all_fit};
ghost use Rattle.row_core.specs.declared.place.Place.{Place};
ghost use Rattle.row_core.specs.EquationTerms.{IsWritten, equation_formed};
ghost use Rattle.row_core.specs.Stops.{IsStop};
ghost use Rattle.named_equations.specs.Instances.{is_index, name_at, stands_at, subscripts_of};
ghost use Rattle.named_equations.specs.RegionFactors.{AreRegionFactors, places_of};
ghost use Rattle.named_equations.specs.RowMeaning.{IsNamedRow};
ghost use Rattle.cost_rows.specs.Rows.{IsCostEquation, terms_at};

use crate::depreciation::{SINKING_FUND, STRAIGHT_LINE, has_sv1, has_sv2, has_sv3};
use crate::investment::{cc1, cc2};
use crate::operating_cost::{oc1, oc2, oc3, oc4};
use crate::salvage::{salvage_by_method, sv3, sv4};
use crate::total_cost::{acc4, tdc1, tdc2};
use discount_factors::Factors;
use equation_parts::index;
use param_tables::ModelData;
use row_core::equation_numbers::{CC1, CC2, OC1, OC2, OC3, OC4, SV1, SV2, SV3, SV4, TDC1, TDC2};
use row_core::{Index, Row, RowName, Stopped};
use std::alloc::Global;

/// The row of a cost with this number (25 CC1 to 30 SV4, 31 OC1 to 34 OC4, 40 TDC1, 41 TDC2, 42 Acc4) at the index: what
/// its equation says, written with whole numbers and without common divisor, its variable with a positive entry. CC1 is
/// that of the profile of the data.
/// `None` comes exactly where the equation has no instance. Of SV1, SV2 and SV3 one stands: SV1 where what is built lasts
/// past the last year and the region depreciates by the sinking fund at a rate above 0, SV2 where it lasts past the last
/// year and the region depreciates by the straight line or has the rate 0, and else SV3.
///
/// `factors` has one entry for each region, in their order: made at the region's DiscountRate in billionths, for at
/// least the years from the first to the last, both included, and for lives of at least the longest OperationalLife
/// there, and all with the same number of decimal places, 6 or 9, which are then those of the row's factors.
///
/// Coefficients are made by multiplying and adding from left to right, those of one variable are added, and
/// denominators are cleared. `Width` with the row's name comes exactly where there is an instance and a number
/// that this forms lies outside the range from `-(2^127 - 1)` to `2^127 - 1`.
/// `Memory` comes where memory ran out.
pub fn rows_of(
    alloc: Global,
    model: &ModelData,
    factors: &[Factors],
    eq: u8,
    at: Index,
) -> Result<Option<Row>, Stopped>
    requires equation { IsCostEquation eq }
    requires factors { AreRegionFactors (places_of factors.now) model.now.facts factors.now }
    requires index { is_index model.now.facts (subscripts_of eq) at ≡ true }
    ensures instance { IfOk result (λ found. is_some found ≡ stands_at model.now.facts eq at) }
    ensures row { IfOk result (λ found. IfSome found (IsNamedRow (places_of factors.now) model.now.facts (name_at eq at) (terms_at (places_of factors.now) model.now.facts (name_at eq at)))) }
    ensures fits { IfOk result (λ found. IfSome found (λ row. all_fit (equation_formed (terms_at (places_of factors.now) model.now.facts (name_at eq at))) ≡ true)) }
    ensures stopped { IfErr result (IsStop (Place.Row (name_at eq at)) (not (stands_at model.now.facts eq at) || all_fit (equation_formed (terms_at (places_of factors.now) model.now.facts (name_at eq at))))) }
{
    if !stands(model, eq, at) {
        return Ok(None);
    }
    let name = RowName { eq, index: at };
    match row_of(alloc, model, factors, name) {
        Ok(row) => Ok(Some(row)),
        Err(stopped) => Err(stopped),
    }
}

/// Whether the equation has an instance at the index.
fn stands(model: &ModelData, eq: u8, at: Index) -> bool
    requires equation { IsCostEquation eq }
    requires index { is_index model.now.facts (subscripts_of eq) at ≡ true }
    ensures { result ≡ stands_at model.now.facts eq at }
{
    let index!(region r, tech t, year y) = at;
    match eq {
        SV1 => has_sv1(model, r, t, y),
        SV2 => has_sv2(model, r, t, y),
        SV3 => has_sv3(model, r, t, y),
        _ => true,
    }
}

/// The row of the equation of this name, which has an instance.
fn row_of(
    alloc: Global,
    model: &ModelData,
    factors: &[Factors],
    name: RowName,
) -> Result<Row, Stopped>
    requires equation { IsCostEquation name.eq }
    requires factors { AreRegionFactors (places_of factors.now) model.now.facts factors.now }
    requires index { is_index model.now.facts (subscripts_of name.eq) name.index ≡ true }
    requires instance { stands_at model.now.facts name.eq name.index ≡ true }
    ensures { IsWritten name (terms_at (places_of factors.now) model.now.facts name) result }
{
    match name.eq {
        CC1 => cc1(alloc, model, factors, name),
        CC2 => cc2(alloc, model, factors, name),
        SV1 => salvage_by_method(alloc, model, factors, name, SINKING_FUND),
        SV2 => salvage_by_method(alloc, model, factors, name, STRAIGHT_LINE),
        SV3 => sv3(alloc, model, name),
        SV4 => sv4(alloc, model, factors, name),
        OC1 => oc1(alloc, model, name),
        OC2 => oc2(alloc, model, name),
        OC3 => oc3(alloc, model, name),
        OC4 => oc4(alloc, model, factors, name),
        TDC1 => tdc1(alloc, model, name),
        TDC2 => tdc2(alloc, model, name),
        _ => acc4(alloc, model, name),
    }
}
