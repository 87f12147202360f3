//! The row of one instance alone.

ghost use Rattle.std.specs.Prelude.{◌≡◌, ◌<◌, ◌||◌, true, is_some, not, IfErr, IfOk, IfSome};
ghost use Rattle.discount_factors.specs.Factors.{IsPlaces};
ghost use Rattle.model_sets.specs.Names as sets;
ghost use Rattle.row_core.specs.Equations.{IsEquation};
ghost use Rattle.row_core.specs.Stops.{IsStop};
ghost use Rattle.row_core.specs.declared.place.Place.{Place};
ghost use Rattle.named_equations.specs.Instances.{is_index, stands_at, subscripts_of};
ghost use Rattle.named_equations.specs.Positions.{count_of};
ghost use Rattle.named_equations.specs.RowMeaning.{IsNamedRow};
ghost use Rattle.row_book.specs.Books.{row_fits};
ghost use Rattle.row_book.specs.EquationRows.{terms_at};

use crate::factors::region_factors;
use crate::instance_row::row_of;
use param_tables::ModelData;
use row_core::{Row, RowName, Stopped};
use std::alloc::Global;

/// The row of an equation at an index, with written factors of 6 or 9 decimal places; `None` exactly where it has no instance
/// there. `Width` with the row's name comes exactly where it has one and a number that is formed for the row doesn't fit,
/// and `Memory` where memory ran out.
pub fn row_at(
    alloc: Global,
    model: &ModelData,
    places: u8,
    name: RowName,
) -> Result<Option<Row>, Stopped>
    requires places { IsPlaces places }
    requires equation { IsEquation name.eq }
    requires region { name.index.region < count_of model.now.facts sets.region }
    requires index { is_index model.now.facts (subscripts_of name.eq) name.index ≡ true }
    ensures instance { IfOk result (λ found. is_some found ≡ stands_at model.now.facts name.eq name.index) }
    ensures row { IfOk result (λ found. IfSome found (IsNamedRow places model.now.facts name (terms_at places model.now.facts name))) }
    ensures fits { IfOk result (λ found. IfSome found (λ row. row_fits places model.now.facts name ≡ true)) }
    ensures stopped { IfErr result (IsStop (Place.Row name) (not (stands_at model.now.facts name.eq name.index) || row_fits places model.now.facts name)) }
{
    let factors = match region_factors(alloc, model, places) {
        Ok(factors) => factors,
        Err(_) => return Err(Stopped::Memory),
    };
    row_of(alloc, model, &factors, name)
}
