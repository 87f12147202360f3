// The limits of `curve`: numbers of the data section, separated by commas and strictly ascending.
ghost use Rattle.std.specs.Prelude.{◌≡◌, IfOk, map, option_map};
ghost use Rattle.command_words.specs.LimitLists.{all_of, between_commas, exact_limit, is_ascending, limit_of, limits_of};

use scaled_decimals::{DecFault, read_decimal};
use std::alloc::{AllocError, Global};

// How many limits there are at most.
const MOST_LIMITS: usize = 20;

/// The limits, in billionths: 1 to 20 numbers from 0 to 10^15, none rounded to billionths, each below the next. `None` where the
/// word is no such list.
pub fn limits_of(alloc: Global, word: &str) -> Result<Option<Vec<i128>>, AllocError>
    ensures { IfOk result (λ answer. option_map (λ limits. limits.items) answer ≡ limits_of word.now) }
{
    let texts = texts_of(alloc, word)?;
    let Some(limits) = all_limits(alloc, texts.as_slice())? else {
        return Ok(None);
    };
    if limits.len() <= MOST_LIMITS && is_ascending(limits.as_slice()) {
        Ok(Some(limits))
    } else {
        Ok(None)
    }
}

// The texts between commas.
fn texts_of<'a>(alloc: Global, word: &'a str) -> Result<Vec<&'a str>, AllocError>
    ensures { IfOk result (λ texts. map (λ text. text.now) texts.items ≡ between_commas word.now) }
{
    word.split(',').collect(alloc)
}

// The limits of the texts, where each is one.
fn all_limits(alloc: Global, texts: &[&str]) -> Result<Option<Vec<i128>>, AllocError>
    ensures { IfOk result (λ answer. option_map (λ limits. limits.items) answer ≡ all_of limit_of (map (λ text. text.now) texts.now)) }
{
    let mut limits = Vec::with_capacity(alloc, texts.len())?;
    for text in texts {
        let Some(limit) = limit_of(*text) else {
            return Ok(None);
        };
        limits.push(limit)?;
    }
    Ok(Some(limits))
}

// The limit in billionths: a number from 0 to 10^15, not rounded.
fn limit_of(text: &str) -> Option<i128>
    ensures { result ≡ limit_of text.now }
{
    exact_limit(read_decimal(text.as_bytes()))
}

// The number, where it isn't negative and isn't rounded.
fn exact_limit(read: Result<(i128, bool), DecFault>) -> Option<i128>
    ensures { result ≡ exact_limit read }
{
    match read {
        Ok((limit, false)) if limit >= 0 => Some(limit),
        _ => None,
    }
}

// Each number is below the next.
fn is_ascending(limits: &[i128]) -> bool
    ensures { result ≡ is_ascending limits.now }
{
    let Some((_, others)) = limits.split_first() else {
        return true;
    };
    limits
        .iter()
        .zip(others)
        .all(|(limit, next)| *limit < *next)
}
