//! The row of an equation at an index.

ghost use Rattle.std.specs.Prelude.{◌≡◌, ℕ, true, is_some, IfOk, IfErr, IfSome};
ghost use Rattle.exact_num.specs.Range.{all_fit};
ghost use Rattle.row_core.specs.declared.place.Place.{Place};
ghost use Rattle.row_core.specs.EquationTerms.{IsWritten, equation_formed};
ghost use Rattle.row_core.specs.Stops.{IsStop};
ghost use Rattle.named_equations.specs.Instances.{is_index, name_at, stands_at, subscripts_of};
ghost use Rattle.named_equations.specs.RowMeaning.{IsNamedRow};
ghost use Rattle.capacity_rows.specs.Rows.{IsCapacityEquation, terms_at};

use crate::capacity::{caa1, caa2, caa3, caa4, cab1};
use param_tables::ModelData;
use row_core::equation_numbers::{CAA1, CAA2, CAA3, CAA4};
use row_core::{Index, Row, RowName, Stopped};
use std::alloc::Global;

/// The row of capacity adequacy with this number (2 CAa1, 3 CAa2, 4 CAa3, 5 CAa4, 6 CAb1) at the index: what
/// its equation says, written with whole numbers and without common divisor. A definition has its variable
/// with a positive entry, an inequality is its left side less its right side. Each of them has a row at every
/// index.
///
/// Coefficients are made by multiplying and adding from left to right, those of one variable are added, and
/// denominators are cleared. `Width` with the row's name comes exactly where a number that this forms lies
/// outside the range from `-(2^127 - 1)` to `2^127 - 1`.
/// `Memory` comes where memory ran out.
pub fn rows_of(alloc: Global, model: &ModelData, eq: u8, at: Index) -> Result<Option<Row>, Stopped>
    requires equation { IsCapacityEquation eq }
    requires index { is_index model.now.facts (subscripts_of eq) at ≡ true }
    ensures instance { IfOk result (λ found. is_some found ≡ stands_at model.now.facts eq at) }
    ensures row { (places : ℕ) → IfOk result (λ found. IfSome found (IsNamedRow places model.now.facts (name_at eq at) (terms_at model.now.facts (name_at eq at)))) }
    ensures fits { IfOk result (λ found. all_fit (equation_formed (terms_at model.now.facts (name_at eq at))) ≡ true) }
    ensures stopped { IfErr result (IsStop (Place.Row (name_at eq at)) (all_fit (equation_formed (terms_at model.now.facts (name_at eq at))))) }
{
    match row_of(alloc, model, RowName { eq, index: at }) {
        Ok(row) => Ok(Some(row)),
        Err(stopped) => Err(stopped),
    }
}

/// The row of the equation of this name.
fn row_of(alloc: Global, model: &ModelData, name: RowName) -> Result<Row, Stopped>
    requires equation { IsCapacityEquation name.eq }
    requires index { is_index model.now.facts (subscripts_of name.eq) name.index ≡ true }
    ensures { IsWritten name (terms_at model.now.facts name) result }
{
    match name.eq {
        CAA1 => caa1(alloc, model, name),
        CAA2 => caa2(alloc, model, name),
        CAA3 => caa3(alloc, model, name),
        CAA4 => caa4(alloc, model, name),
        _ => cab1(alloc, model, name),
    }
}
