//! The slope at a limit.

ghost use Rattle.std.specs.Prelude.{◌≡◌, IfOk, is_ok};
ghost use Rattle.row_problem.specs.Prelude.{InRange, all_fit, value_of};
ghost use Rattle.emission_curve.specs.Slopes.{emissions_entry, entry_at, slope_at, slope_formed};

use exact_num::{Frac, TooWide, mul};
use row_core::kind_numbers::MODEL_PERIOD_EMISSIONS;
use row_core::{Multipliers, Row, RowName, Var, fraction, number_of};

/// The multiplier of the limit's row times what the row has at the emissions of the model period.
pub(crate) fn slope_of(
    rows: &[Row],
    limit: RowName,
    multipliers: &Multipliers,
) -> Result<Frac, TooWide>
    ensures refused { is_ok result ≡ all_fit (slope_formed rows.now multipliers.now limit) }
    ensures value { IfOk result (λ slope. value_of slope ≡ slope_at rows.now multipliers.now limit) }
{
    mul(multipliers.value(limit), fraction(entry_at(rows, limit)))
}

/// What the row of this name has at the emissions of the model period, 0 where there is no such row.
fn entry_at(rows: &[Row], limit: RowName) -> i128
    ensures value { result ≡ entry_at rows.now limit }
    ensures range { InRange result }
{
    for row in rows {
        if row.name == limit {
            return emissions_entry(row);
        }
    }
    0
}

/// What a row has at the emissions of the model period with its own subscripts.
fn emissions_entry(row: &Row) -> i128
    ensures value { result ≡ emissions_entry row.now }
    ensures range { InRange result }
{
    let emissions = Var {
        kind: MODEL_PERIOD_EMISSIONS,
        index: row.name.index,
    };
    number_of(&row.entries, emissions)
}
