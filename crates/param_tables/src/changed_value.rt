//! What a value becomes by a change.

ghost use Rattle.std.specs.Prelude.{◌≡◌, ◌^◌, ◌<◌, ◌≤◌, ℤ, ◌*ℤ◌, ◌&&◌, false, int_lt, not, unsigned_abs, pos, None, Some, IfErr, IfOk, IfSome, IfNone, OnOk};
ghost use Rattle.model_sets.specs.declared.params.Range.TheVariants.{Lifetime};
ghost use Rattle.mathprog_data.specs.WellFormed.{IsWithinLimit};
ghost use Rattle.model_sets.specs.Params.{IsParam, range_of};
ghost use Rattle.param_tables.specs.Built.{IsValueIn};
ghost use Rattle.param_tables.specs.Changes.{changed_fault, changed_value, is_left, is_no_limit, is_product_rounded, is_rounded_by, product};
ghost use Rattle.param_tables.specs.OpenTables.{rule_of};

use crate::change::{Change, ChangeKind};
use crate::fault::CellFault;
use crate::ranges::range_fault;
use model_sets::param_numbers::{
    ANNUAL_EMISSION_LIMIT, MODEL_PERIOD_EMISSION_LIMIT, TOTAL_ANNUAL_MAX_CAPACITY,
    TOTAL_ANNUAL_MAX_CAPACITY_INVESTMENT, TOTAL_TECHNOLOGY_ANNUAL_ACTIVITY_UPPER_LIMIT,
    TOTAL_TECHNOLOGY_MODEL_PERIOD_ACTIVITY_UPPER_LIMIT,
};
use model_sets::{Range, range_of};

/// One, in billionths.
const ONE: i128 = 1_000_000_000;

/// The size of one, in billionths.
const ONE_SIZE: u128 = 1_000_000_000;

/// The largest size of a value, in billionths.
const LARGEST: u128 = 1_000_000_000_000_000_000_000_000;

/// What a change gives in place of a value.
#[derive(Clone, Copy, PartialEq, Eq, Debug)]
pub(crate) struct ChangedValue {
    /// The value, in billionths.
    pub(crate) value: i128,
    /// Whether it was rounded to billionths.
    pub(crate) is_rounded: bool,
}

/// Whether this value of the parameter says that there is no limit.
fn is_no_limit(param: u8, value: i128) -> bool
    ensures { result ≡ is_no_limit param value }
{
    value == -ONE
        && matches!(
            param,
            TOTAL_ANNUAL_MAX_CAPACITY
                | TOTAL_ANNUAL_MAX_CAPACITY_INVESTMENT
                | TOTAL_TECHNOLOGY_ANNUAL_ACTIVITY_UPPER_LIMIT
                | TOTAL_TECHNOLOGY_MODEL_PERIOD_ACTIVITY_UPPER_LIMIT
                | ANNUAL_EMISSION_LIMIT
                | MODEL_PERIOD_EMISSION_LIMIT
        )
}

/// A value that isn't rounded.
fn exact(value: i128) -> ChangedValue
    ensures value { result.value ≡ value }
    ensures rounded { result.is_rounded ≡ false }
{
    ChangedValue {
        value,
        is_rounded: false,
    }
}

/// The product, to the nearest billionth, halves away from 0; `None` where it is far above all values.
fn product(value: i128, factor: i128) -> Option<ChangedValue>
    ensures value { IfSome result (λ changed. changed.value ≡ product value factor) }
    ensures rounded { IfSome result (λ changed. changed.is_rounded ≡ is_product_rounded value factor) }
    ensures wide { IfNone result (2 ^ 127 ≤ unsigned_abs (value *ℤ factor)) }
{
    let product = value.checked_mul(factor)?;
    let size = product.unsigned_abs();
    let rounded = ((size + ONE_SIZE / 2) / ONE_SIZE) as i128;
    Some(ChangedValue {
        value: if product < 0 { -rounded } else { rounded },
        is_rounded: size % ONE_SIZE != 0,
    })
}

/// What the value becomes by the change; `None` where that is a product far above all values.
fn changed_value(change: &Change, value: i128) -> Option<ChangedValue>
    requires amount { IsWithinLimit change.now.amount }
    requires value { IsWithinLimit value }
    ensures value { IfSome result (λ changed. changed.value ≡ changed_value (rule_of change.now) value) }
    ensures rounded { IfSome result (λ changed. changed.is_rounded ≡ (not (is_left (rule_of change.now) value) && is_rounded_by change.now.kind change.now.amount value)) }
    ensures product { IfNone result (changed_value (rule_of change.now) value ≡ product value change.now.amount) }
    ensures wide { IfNone result (2 ^ 127 ≤ unsigned_abs (value *ℤ change.now.amount)) }
{
    match change.kind {
        ChangeKind::Put => Some(exact(change.amount)),
        ChangeKind::Multiply => {
            if is_no_limit(change.param, value) {
                return Some(exact(value));
            }
            product(value, change.amount)
        }
        ChangeKind::Add => {
            if is_no_limit(change.param, value) {
                return Some(exact(value));
            }
            Some(exact(value + change.amount))
        }
    }
}

/// Why the value, in billionths, is refused.
fn changed_fault(range: Range, value: i128) -> Option<CellFault>
    ensures { result ≡ changed_fault range value }
{
    if let Some(fault) = range_fault(range, value) {
        return Some(fault);
    }
    if value.unsigned_abs() > LARGEST {
        return Some(CellFault::OutOfRange);
    }
    None
}

/// Why a value is refused that is far above all values, or below them. No life is multiplied to one.
fn wide_fault(range: Range, is_negative: bool) -> CellFault
    ensures { (v : ℤ) → 10 ^ 24 < unsigned_abs v → int_lt v (pos 0) ≡ is_negative → (range ≡ Lifetime → ⊥) → changed_fault range v ≡ Some result }
{
    match range {
        Range::AtLeastZero if is_negative => CellFault::Negative,
        Range::AboveZero if is_negative => CellFault::NotPositive,
        Range::ZeroOnly => CellFault::WholeUnits,
        _ => CellFault::OutOfRange,
    }
}

/// What the change gives in place of a value of its parameter. Refuses one that lies outside the parameter's
/// range, or outside those from -10^24 to 10^24.
pub(crate) fn value_by(change: &Change, value: i128) -> Result<ChangedValue, CellFault>
    requires param { IsParam change.now.param }
    requires amount { IsWithinLimit change.now.amount }
    requires value { IsValueIn (range_of change.now.param) value }
    ensures value { IfOk result (λ changed. changed.value ≡ changed_value (rule_of change.now) value) }
    ensures rounded { IfOk result (λ changed. changed.is_rounded ≡ (not (is_left (rule_of change.now) value) && is_rounded_by change.now.kind change.now.amount value)) }
    ensures accepted { OnOk result (changed_fault (range_of change.now.param) (changed_value (rule_of change.now) value) ≡ None) }
    ensures refused { IfErr result (λ fault. changed_fault (range_of change.now.param) (changed_value (rule_of change.now) value) ≡ Some fault) }
{
    let range = range_of(change.param);
    let Some(changed) = changed_value(change, value) else {
        return Err(wide_fault(range, (value < 0) != (change.amount < 0)));
    };
    match changed_fault(range, changed.value) {
        Some(fault) => Err(fault),
        None => Ok(changed),
    }
}
