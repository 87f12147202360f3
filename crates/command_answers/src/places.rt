// The names of places at which a number doesn't fit, as the lines of every command have them.
ghost use Rattle.std.specs.Prelude.{◌≡◌, ◌++◌, OnOk};
ghost use Rattle.row_core.specs.Equations.{IsEquation};
ghost use Rattle.row_core.specs.Kinds.{IsKind};
ghost use Rattle.row_core.specs.NameTexts.{RowNameIsWithin, VariableIsWithin, row_name, variable_name};
ghost use Rattle.command_answers.specs.Lines.{place_text};
ghost use Rattle.command_answers.specs.PlacesWithin.{PlaceIsWithin};

use crate::amounts::push_with_number;
use model_sets::Sets;
use row_core::{Place, RowName, Var, push_row_name, push_var};
use std::alloc::AllocError;

/// Appends the name of a place, as `row CAa1[R,T,2020]` or `sum bound`.
pub fn push_place(out: &mut Vec<u8>, place: Place, sets: &Sets) -> Result<(), AllocError>
    requires { PlaceIsWithin sets.now place }
    ensures { OnOk result (out.new.items ≡ out.old.items ++ place_text sets.now place) }
{
    match place {
        Place::Row(name) => push_with_row(out, b"row ", name, sets),
        Place::Expand(name) => push_with_row(out, b"expand ", name, sets),
        Place::CostRow => out.extend_from_slice(b"cost row"),
        Place::Pivot(number) => push_with_number(out, b"pivot ", number),
        Place::LiftPlan(var) => push_with_var(out, b"plan ", var, sets),
        Place::LiftMultiplier(name) => push_with_row(out, b"multiplier ", name, sets),
        Place::LiftDirection(var) => push_with_var(out, b"direction ", var, sets),
        Place::Check(name) => push_with_row(out, b"check ", name, sets),
        Place::Column(var) => push_with_var(out, b"column ", var, sets),
        Place::SumCost => out.extend_from_slice(b"sum cost"),
        Place::SumBound => out.extend_from_slice(b"sum bound"),
        Place::SumGap => out.extend_from_slice(b"sum gap"),
        Place::Price(name) => push_with_row(out, b"price ", name, sets),
    }
}

/// Appends a word and a row's name.
pub fn push_with_row(
    out: &mut Vec<u8>,
    word: &[u8],
    name: RowName,
    sets: &Sets,
) -> Result<(), AllocError>
    requires listed { IsEquation name.eq }
    requires within { RowNameIsWithin sets.now name }
    ensures { OnOk result (out.new.items ≡ out.old.items ++ (word.now ++ row_name sets.now name)) }
{
    out.extend_from_slice(word)?;
    push_row_name(out, name, sets)
}

/// Appends a word and a variable's name.
pub fn push_with_var(
    out: &mut Vec<u8>,
    word: &[u8],
    var: Var,
    sets: &Sets,
) -> Result<(), AllocError>
    requires listed { IsKind var.kind }
    requires within { VariableIsWithin sets.now var }
    ensures { OnOk result (out.new.items ≡ out.old.items ++ (word.now ++ variable_name sets.now var)) }
{
    out.extend_from_slice(word)?;
    push_var(out, var, sets)
}
