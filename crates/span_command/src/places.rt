// The names of places, the row that limits the cost among them.
ghost use Rattle.std.specs.Prelude.{◌≡◌, ◌++◌, OnOk};
ghost use Rattle.span_command.specs.LimitedPlaces.{NameIsLimited, PlaceIsLimited, TrialIsLimited};
ghost use Rattle.span_command.specs.SpanTexts.{limited_name, limited_place, limited_trial};

use command_answers::{TrialStop, push_with_number, push_with_row, push_with_var};
use model_sets::Sets;
use row_core::{Place, RowName, SPAN};
use std::alloc::AllocError;

/// Appends why a trial stopped: `budget N` or `width PLACE`.
pub fn push_trial_stop(out: &mut Vec<u8>, stop: TrialStop, sets: &Sets) -> Result<(), AllocError>
    requires { TrialIsLimited sets.now stop }
    ensures { OnOk result (out.new.items ≡ out.old.items ++ limited_trial sets.now stop) }
{
    match stop {
        TrialStop::Budget(pivots) => push_with_number(out, b"budget ", pivots),
        TrialStop::Width(place) => {
            out.extend_from_slice(b"width ")?;
            push_place(out, place, sets)
        }
    }
}

/// Appends the name of a place, as `row SPAN[]` or `check CAa1[R,T,2020]`.
pub fn push_place(out: &mut Vec<u8>, place: Place, sets: &Sets) -> Result<(), AllocError>
    requires { PlaceIsLimited sets.now place }
    ensures { OnOk result (out.new.items ≡ out.old.items ++ limited_place sets.now place) }
{
    match place {
        Place::Row(name) => push_with_name(out, b"row ", name, sets),
        Place::Expand(name) => push_with_name(out, b"expand ", name, sets),
        Place::CostRow => out.extend_from_slice(b"cost row"),
        Place::Pivot(number) => push_with_number(out, b"pivot ", number),
        Place::LiftPlan(var) => push_with_var(out, b"plan ", var, sets),
        Place::LiftMultiplier(name) => push_with_name(out, b"multiplier ", name, sets),
        Place::LiftDirection(var) => push_with_var(out, b"direction ", var, sets),
        Place::Check(name) => push_with_name(out, b"check ", name, sets),
        Place::Column(var) => push_with_var(out, b"column ", var, sets),
        Place::SumCost => out.extend_from_slice(b"sum cost"),
        Place::SumBound => out.extend_from_slice(b"sum bound"),
        Place::SumGap => out.extend_from_slice(b"sum gap"),
        Place::Price(name) => push_with_name(out, b"price ", name, sets),
    }
}

// Appends a word and the name of a row. That of the row that limits the cost has no subscripts.
fn push_with_name(
    out: &mut Vec<u8>,
    word: &[u8],
    name: RowName,
    sets: &Sets,
) -> Result<(), AllocError>
    requires { NameIsLimited sets.now name }
    ensures { OnOk result (out.new.items ≡ out.old.items ++ (word.now ++ limited_name sets.now name)) }
{
    if name.eq == SPAN {
        out.extend_from_slice(word)?;
        out.extend_from_slice(b"SPAN[]")
    } else {
        push_with_row(out, word, name, sets)
    }
}
