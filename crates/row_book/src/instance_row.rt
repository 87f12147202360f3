//! The row of one instance.

ghost use Rattle.std.specs.Prelude.{◌≡◌, true, not, ◌||◌, is_some, IfErr, IfOk, IfSome};
ghost use Rattle.row_core.specs.Equations.{IsEquation};
ghost use Rattle.row_core.specs.Stops.{IsStop};
ghost use Rattle.row_core.specs.declared.place.Place.{Place};
ghost use Rattle.named_equations.specs.Instances.{is_index, stands_at, subscripts_of};
ghost use Rattle.named_equations.specs.RegionFactors.{AreRegionFactors, places_of};
ghost use Rattle.named_equations.specs.RowMeaning.{IsNamedRow};
ghost use Rattle.row_book.specs.Books.{row_fits};
ghost use Rattle.row_book.specs.EquationRows.{terms_at};

use discount_factors::Factors;
use param_tables::ModelData;
use row_core::equation_numbers::{ACC4, CAA1, CAB1, CC1, E1, E5, E6, E9, OC4, RE5, TCC1, TDC1};
use row_core::{Row, RowName, Stopped};
use std::alloc::Global;

/// The row of an equation at an index, if there is an instance.
pub(crate) fn row_of(
    alloc: Global,
    model: &ModelData,
    factors: &[Factors],
    name: RowName,
) -> Result<Option<Row>, Stopped>
    requires equation { IsEquation name.eq }
    requires factors { AreRegionFactors (places_of factors.now) model.now.facts factors.now }
    requires index { is_index model.now.facts (subscripts_of name.eq) name.index ≡ true }
    ensures instance { IfOk result (λ found. is_some found ≡ stands_at model.now.facts name.eq name.index) }
    ensures row { IfOk result (λ found. IfSome found (IsNamedRow (places_of factors.now) model.now.facts name (terms_at (places_of factors.now) model.now.facts name))) }
    ensures fits { IfOk result (λ found. IfSome found (λ row. row_fits (places_of factors.now) model.now.facts name ≡ true)) }
    ensures stopped { IfErr result (IsStop (Place.Row name) (not (stands_at model.now.facts name.eq name.index) || row_fits (places_of factors.now) model.now.facts name)) }
{
    match name.eq {
        CAA1..=CAB1 => capacity_rows::rows_of(alloc, model, name.eq, name.index),
        CC1..=OC4 | TDC1..=ACC4 => cost_rows::rows_of(alloc, model, factors, name.eq, name.index),
        E1..=E5 | E6..=E9 => emission_rows::rows_of(alloc, model, factors, name.eq, name.index),
        TCC1..=RE5 => limit_rows::rows_of(alloc, model, name.eq, name.index),
        _ => balance_rows::rows_of(alloc, model, name.eq, name.index),
    }
}
