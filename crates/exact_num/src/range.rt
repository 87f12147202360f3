// The range of all numbers, and sums, differences and products that are refused where they leave it.
ghost use Rattle.std.specs.Prelude.{◌≡◌, ◌↔◌, ◌^◌, ◌<◌, IsTrue, IfOk, is_ok, ◌+ℤ◌, ◌-ℤ◌, ◌*ℤ◌, unsigned_abs};
ghost use Rattle.exact_num.specs.Range.{InRange, in_range};

/// The refusal of a number outside the range from `-(2^127 - 1)` to `2^127 - 1`.
#[derive(Clone, Copy, Debug, PartialEq, Eq)]
pub struct TooWide;

/// Whether `n` lies in the range from `-(2^127 - 1)` to `2^127 - 1`, which has with each number its negation.
pub fn fits(n: i128) -> bool
    ensures { IsTrue result ↔ InRange n }
{
    n != i128::MIN
}

/// `a + b`, or `TooWide` where the sum doesn't fit.
#[tactic(auto, using(crate::proofs::RangeLaws::ranges))]
pub fn total(a: i128, b: i128) -> Result<i128, TooWide>
    ensures refused { is_ok result ≡ in_range (a +ℤ b) }
    ensures value { IfOk result (λ v. v ≡ a +ℤ b) }
    ensures range { IfOk result (λ v. InRange v) }
{
    match a.checked_add(b) {
        Some(sum) if fits(sum) => Ok(sum),
        _ => Err(TooWide),
    }
}

/// `a - b`, or `TooWide` where the difference doesn't fit.
#[tactic(auto, using(crate::proofs::RangeLaws::ranges))]
pub fn difference(a: i128, b: i128) -> Result<i128, TooWide>
    ensures refused { is_ok result ≡ in_range (a -ℤ b) }
    ensures value { IfOk result (λ v. v ≡ a -ℤ b) }
    ensures range { IfOk result (λ v. InRange v) }
{
    match a.checked_sub(b) {
        Some(rest) if fits(rest) => Ok(rest),
        _ => Err(TooWide),
    }
}

/// `a * b`, or `TooWide` where the product doesn't fit.
#[tactic(auto, using(crate::proofs::RangeLaws::ranges))]
pub fn product(a: i128, b: i128) -> Result<i128, TooWide>
    ensures refused { is_ok result ≡ in_range (a *ℤ b) }
    ensures value { IfOk result (λ v. v ≡ a *ℤ b) }
    ensures range { IfOk result (λ v. InRange v) }
{
    if is_narrow(a) && is_narrow(b) {
        Ok(narrow_product(a, b))
    } else {
        checked_product(a, b)
    }
}

// Whether the absolute value of n is below 2^63.
fn is_narrow(n: i128) -> bool
    ensures { IsTrue result ↔ (unsigned_abs n < 2 ^ 63) }
{
    -(1 << 63) < n && n < 1 << 63
}

// `a * b`, which has 126 bits at most.
#[tactic(auto, using(crate::proofs::RangeLaws::narrow_is))]
fn narrow_product(a: i128, b: i128) -> i128
    requires left { unsigned_abs a < 2 ^ 63 }
    requires right { unsigned_abs b < 2 ^ 63 }
    ensures value { result ≡ a *ℤ b }
    ensures range { InRange (a *ℤ b) }
{
    a * b
}

// The same as `product`, for any two numbers.
#[tactic(auto, using(crate::proofs::RangeLaws::ranges))]
fn checked_product(a: i128, b: i128) -> Result<i128, TooWide>
    ensures refused { is_ok result ≡ in_range (a *ℤ b) }
    ensures value { IfOk result (λ v. v ≡ a *ℤ b) }
    ensures range { IfOk result (λ v. InRange v) }
{
    match a.checked_mul(b) {
        Some(all) if fits(all) => Ok(all),
        _ => Err(TooWide),
    }
}
