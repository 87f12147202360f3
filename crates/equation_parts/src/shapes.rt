//! The rows of shapes that many equations share.

ghost use Rattle.std.specs.Prelude.{◌≡◌, ℕ, ℤ, OnOk};
ghost use Rattle.row_core.specs.Amounts.{Amount, Billionths};
ghost use Rattle.row_core.specs.Calculated.{known, number_of, with_amounts};
ghost use Rattle.row_core.specs.EquationTerms.{IsWritten, each, less};
ghost use Rattle.row_core.specs.declared.Var.{Var};
ghost use Rattle.named_equations.specs.TermShapes.{is_covered, is_limited, is_times};

use exact_num::Frac;
use row_core::{LeftSide, Row, RowName, Sense, Stopped, Var, minus_one, negative, one, zero};
use std::alloc::{AllocError, Global};

/// The row that says that a variable is another times a factor.
pub fn is_times(
    alloc: Global,
    name: RowName,
    variable: Var,
    other: Var,
    factor: Option<Frac>,
) -> Result<Row, Stopped>
    ensures { (a : Amount) → known factor ≡ number_of a → IsWritten name (is_times variable other a) result }
{
    let mut left = LeftSide::new(alloc, name);
    left.add(variable, one())?;
    left.add(other, negative(factor))?;
    left.write(alloc, Sense::Equal, zero())
}

/// The row that says that a variable stands in this sense to its limit.
pub fn is_limited(
    alloc: Global,
    name: RowName,
    variable: Var,
    sense: Sense,
    limit: Option<Frac>,
) -> Result<Row, Stopped>
    ensures { (z : ℤ) → known limit ≡ number_of (Billionths z) → IsWritten name (is_limited sense variable z) result }
{
    let mut left = LeftSide::new(alloc, name);
    left.add(variable, one())?;
    left.write(alloc, sense, limit)
}

/// The row that says that a variable times a data value is at most another.
pub fn is_covered(
    alloc: Global,
    name: RowName,
    variable: Var,
    part: Option<Frac>,
    cover: Var,
) -> Result<Row, Stopped>
    ensures { (z : ℤ) → known part ≡ number_of (Billionths z) → IsWritten name (is_covered variable z cover) result }
{
    let mut left = LeftSide::new(alloc, name);
    left.add(variable, part)?;
    left.add(cover, minus_one())?;
    left.write(alloc, Sense::Most, zero())
}

/// Takes away the variable of each of these positions, in order. `AllocError` comes only out of memory.
pub fn take_away_each<F: Fn(u16) -> Var>(
    left: &mut LeftSide,
    positions: &[u16],
    variable: F,
) -> Result<(), AllocError>
    requires { F.IsAlwaysCallable variable }
    ensures { (g : ℕ → Var) → ((i : ℕ) (given : Var) → F.post variable i given → given ≡ g i)
        → OnOk result (left.new ≡ with_amounts (each positions.now (λ i. less (g i))) left.old) }
{
    for position in positions {
        left.add(variable(*position), minus_one())?;
    }
    Ok(())
}
