// The texts of `check` for a plan that was read.
ghost use Rattle.std.specs.Prelude.{◌≡◌, ◌++◌, IfOk, OnOk, codes, option_map};
ghost use Rattle.exact_num.specs.Value.{value_of};
ghost use Rattle.scaled_decimals.specs.PrintedFraction.{fraction_text};
ghost use Rattle.check_command.specs.CheckLines.{CanBeSaid, accepted_text, rejected_line, rejection_text};
ghost use Rattle.check_command.specs.CheckOutcomes.{bound_values};

use crate::outcome::Bound;
use certificate_checker::Rejection;
use command_answers::{push_amount, push_with_row, push_with_var};
use exact_num::Frac;
use model_sets::Sets;
use scaled_decimals::push_frac;
use std::alloc::{AllocError, Global};

/// The text for a plan that passes: `accepted`, its cost, and with multipliers the bound and the gap.
pub fn accepted_text(alloc: Global, cost: Frac, bound: Option<Bound>) -> Result<Vec<u8>, AllocError>
    ensures { IfOk result (λ text. text.items ≡ accepted_text (value_of cost) (option_map bound_values bound)) }
{
    let mut text = Vec::from_slice(alloc, b"accepted\n")?;
    push_amount(&mut text, b"cost ", cost)?;
    if let Some(Bound { bound, gap }) = bound {
        push_amount(&mut text, b"bound ", bound)?;
        push_amount(&mut text, b"gap ", gap)?;
    }
    Ok(text)
}

/// The line for the first condition that fails: `rejected violates EQ by Q`, `rejected sign VAR`, `rejected multiplier EQ`,
/// `rejected column VAR by Q`, `rejected not negative`, `rejected not positive` or `rejected gap Q`.
pub fn rejected_line(
    alloc: Global,
    rejection: Rejection,
    sets: &Sets,
) -> Result<Vec<u8>, AllocError>
    requires { CanBeSaid sets.now rejection }
    ensures { IfOk result (λ text. text.items ≡ rejected_line sets.now rejection) }
{
    let mut text = Vec::from_slice(alloc, b"rejected ")?;
    push_rejection(&mut text, rejection, sets)?;
    text.extend_from_slice(b"\n")?;
    Ok(text)
}

// Appends why a check says no.
fn push_rejection(out: &mut Vec<u8>, rejection: Rejection, sets: &Sets) -> Result<(), AllocError>
    requires { CanBeSaid sets.now rejection }
    ensures { OnOk result (out.new.items ≡ out.old.items ++ rejection_text sets.now rejection) }
{
    match rejection {
        Rejection::Violates(name, amount) => {
            push_with_row(out, b"violates ", name, sets)?;
            push_by(out, amount)
        }
        Rejection::WrongSign(var) => push_with_var(out, b"sign ", var, sets),
        Rejection::WrongMultiplier(name) => push_with_row(out, b"multiplier ", name, sets),
        Rejection::Column(var, amount) => {
            push_with_var(out, b"column ", var, sets)?;
            push_by(out, amount)
        }
        Rejection::GapPassed(amount) => {
            out.extend_from_slice(b"gap ")?;
            push_frac(out, amount)
        }
        Rejection::NotNegative => out.extend_from_slice(b"not negative"),
        Rejection::NotPositive => out.extend_from_slice(b"not positive"),
    }
}

// Appends by how much something is off.
fn push_by(out: &mut Vec<u8>, amount: Frac) -> Result<(), AllocError>
    ensures { OnOk result (out.new.items ≡ out.old.items ++ codes " by " ++ fraction_text (value_of amount)) }
{
    out.extend_from_slice(b" by ")?;
    push_frac(out, amount)
}
