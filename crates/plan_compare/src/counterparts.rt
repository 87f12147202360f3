//! The same variable in other sets.

ghost use Rattle.std.specs.Prelude.{◌≡◌, ◌<◌};
ghost use Rattle.row_core.specs.NameTexts.{member};
ghost use Rattle.row_core.specs.Kinds.{IsKind};
ghost use Rattle.plan_compare.specs.Counterparts.{counterpart, counts, position_there};

use model_sets::Sets;
use plan_tables::{position_at, set_of};
use row_core::{Index, Var, var_has};

/// The place of the year among the fields of `Index`.
const YEAR_PLACE: u8 = 7;

/// The variable of the same kind whose subscripts stand for members of the same names there, if all of them are there; its other
/// subscripts are 0, and so is the year where years aren't told apart.
pub(crate) fn counterpart(
    by_year: bool,
    kind: u8,
    here: &Sets,
    there: &Sets,
    var: Var,
) -> Option<Var>
    requires { IsKind kind }
    ensures { result ≡ counterpart by_year kind here.now there.now var }
{
    let region = position_there(by_year, kind, here, there, var, 0)?;
    let other = position_there(by_year, kind, here, there, var, 1)?;
    let slice = position_there(by_year, kind, here, there, var, 2)?;
    let tech = position_there(by_year, kind, here, there, var, 3)?;
    let fuel = position_there(by_year, kind, here, there, var, 4)?;
    let emission = position_there(by_year, kind, here, there, var, 5)?;
    let mode = position_there(by_year, kind, here, there, var, 6)?;
    let year = position_there(by_year, kind, here, there, var, 7)?;
    let index = Index {
        region,
        other,
        slice,
        tech,
        fuel,
        emission,
        mode,
        year,
    };
    Some(Var { kind, index })
}

// The position there of the member for which a subscript stands, if it is there; 0 for a subscript that doesn't count.
fn position_there(
    by_year: bool,
    kind: u8,
    here: &Sets,
    there: &Sets,
    var: Var,
    place: u8,
) -> Option<u16>
    requires listed { IsKind kind }
    requires within { place < 8 }
    ensures { result ≡ position_there by_year kind here.now there.now var place }
{
    if counts(by_year, kind, place) {
        there.index_of(set_of(place), member(here, var.index, place))
    } else {
        Some(0)
    }
}

/// Whether a kind has a subscript at a place, and it isn't the year where years aren't told apart.
pub(crate) fn counts(by_year: bool, kind: u8, place: u8) -> bool
    requires listed { IsKind kind }
    requires within { place < 8 }
    ensures { result ≡ counts by_year kind place }
{
    var_has(kind, place) && (by_year || place != YEAR_PLACE)
}

/// The name of the member for which the subscript at a place stands, and nothing where its set has no such member.
pub(crate) fn member<'a>(sets: &'a Sets, at: Index, place: u8) -> &'a [u8]
    ensures { result.now ≡ member sets.now at place }
{
    let set = set_of(place);
    let position = position_at(at, place);
    if position < sets.count(set) {
        sets.name_of(set, position)
    } else {
        b""
    }
}
