//! Yearly balances that the balances of the timeslices imply.
//!
//! Without this step the elimination of Trade explodes from three regions on.

use crate::access::{at, item, put};
use crate::entries::{Entry, less_product, quotient};
use crate::inequalities::Inequalities;
use crate::stop::Stop;
use exact_num::{Frac, cmp_frac, mul};
use row_core::RowName;
use row_core::equation_numbers::{EBA11, EBB4};
use std::alloc::Global;
use std::collections::BTreeMap;

/// The region, the fuel and the year of a balance.
type Balance = (u16, u16, u16);

/// A yearly balance goes where it is the sum of the balances of its timeslices, each times a positive factor, and its right side
/// is no stronger than theirs.
pub(crate) fn drop_implied(alloc: Global, all: &mut Inequalities) -> Result<(), Stop> {
    let mut slices = BTreeMap::new(alloc);
    for row in 0..all.rows.len() {
        let name = at(&all.names, row)?;
        if name.eq == EBA11 {
            add_slice(alloc, &mut slices, balance_of(name), row)?;
        }
    }
    for row in 0..all.rows.len() {
        let name = at(&all.names, row)?;
        if name.eq == EBB4
            && let Some(parts) = slices.get(&balance_of(name))
            && is_implied(all, row, parts)?
        {
            put(&mut all.row_on, row, false)?;
        }
    }
    Ok(())
}

/// The key of a balance.
fn balance_of(name: RowName) -> Balance {
    (name.index.region, name.index.fuel, name.index.year)
}

/// Adds the balance of a timeslice to those of its year.
fn add_slice(
    alloc: Global,
    slices: &mut BTreeMap<Balance, Vec<usize>>,
    key: Balance,
    row: usize,
) -> Result<(), Stop> {
    if let Some(rows) = slices.get_mut(&key) {
        rows.push(row)?;
        return Ok(());
    }
    let mut rows = Vec::new(alloc);
    rows.push(row)?;
    match slices.insert(key, rows) {
        Ok(_) => Ok(()),
        Err(_) => Err(Stop::Memory),
    }
}

/// Whether the row is the sum of the parts, whose columns are apart, each times a positive factor.
fn is_implied(all: &Inequalities, row: usize, parts: &[usize]) -> Result<bool, Stop> {
    let whole = item(&all.rows, row)?;
    let mut count: usize = 0;
    let mut rest = at(&all.right, row)?;
    for part in parts {
        let entries = item(&all.rows, *part)?;
        let Some(factor) = factor_of(whole, entries)? else {
            return Ok(false);
        };
        count = count.saturating_add(entries.len());
        rest = less_product(rest, factor, at(&all.right, *part)?)?;
    }
    Ok(count == whole.len() && rest.num >= 0)
}

/// The positive factor by which the part stands in the whole, if there is one.
fn factor_of(whole: &[Entry], part: &[Entry]) -> Result<Option<Frac>, Stop> {
    let mut factor: Option<Frac> = None;
    for entry in part {
        let Some(number) = value_at(whole, entry.at) else {
            return Ok(None);
        };
        match factor {
            None => {
                let first = quotient(number, entry.value())?;
                if first.num <= 0 {
                    return Ok(None);
                }
                factor = Some(first);
            }
            Some(first) => {
                let wanted = mul(first, entry.value())?;
                if cmp_frac(wanted, number).is_ne() {
                    return Ok(None);
                }
            }
        }
    }
    Ok(factor)
}

/// The number at a column, by binary search.
fn value_at(entries: &[Entry], column: usize) -> Option<Frac> {
    match entries.binary_search_by_key(&column, |entry| entry.at) {
        Ok(place) => Some(entries[place].value()),
        Err(_) => None,
    }
}
