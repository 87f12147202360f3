//! Members of sets.

ghost use Rattle.std.specs.Prelude.{IfSome};
ghost use Rattle.model_sets.specs.Names.{IsSet};

use model_sets::set_numbers::{DAILYTIMEBRACKET, REGION, YEAR};
use model_sets::{SetFail, SetFault, Sets, set_word};
use std::alloc::{AllocError, Global};

/// The number of the set of this word.
pub fn set_of(word: &str) -> Option<u8>
    ensures { IfSome result IsSet }
{
    for set in REGION..=DAILYTIMEBRACKET {
        if set_word(set) == word {
            return Some(set);
        }
    }
    None
}

/// `members|SET NAME|SET NAME ..`: what each name that is offered to its set gets, its position or the number of the fault; and then the
/// years, the first and the last of them.
pub fn members_told(alloc: Global, text: &str) -> Result<String, AllocError> {
    let mut sets = Sets::new(alloc)?;
    let mut out = String::new(alloc);
    for offer in text.split('|') {
        let (word, name) = offer.split_once(' ').unwrap_or((offer, ""));
        push_offer(alloc, &mut out, &mut sets, word, name)?;
    }
    push_years(alloc, &mut out, &sets)?;
    Ok(out)
}

/// Offers a name, and appends what it gets.
fn push_offer(
    alloc: Global,
    out: &mut String,
    sets: &mut Sets,
    word: &str,
    name: &str,
) -> Result<(), AllocError> {
    let Some(set) = set_of(word) else {
        return out.push_str("no set ");
    };
    match sets.add(set, name.as_bytes()) {
        Ok(position) => out.push_str(format!(in alloc; "{position} ")?.as_str()),
        Err(SetFail::Fault(SetFault { no, set })) => {
            out.push_str(format!(in alloc; "fault {no} of {set} ")?.as_str())
        }
        Err(SetFail::Memory) => Err(AllocError),
    }
}

/// Appends the years in order, and the first and the last of them.
fn push_years(alloc: Global, out: &mut String, sets: &Sets) -> Result<(), AllocError> {
    out.push_str("years")?;
    for i in 0..sets.count(YEAR) {
        out.push_str(format!(in alloc; " {}", sets.year(i))?.as_str())?;
    }
    if sets.count(YEAR) > 0 {
        let (first, last) = (sets.first_year(), sets.last_year());
        out.push_str(format!(in alloc; " from {first} to {last}")?.as_str())?;
    }
    Ok(())
}

/// `filled|SET|NAME|NAME ..`: how many of the names 1000, 1001 and so on a set takes, the number of the fault after them, and what further
/// names get.
pub fn filled_told(alloc: Global, text: &str) -> Result<String, AllocError> {
    let mut sets = Sets::new(alloc)?;
    let mut out = String::new(alloc);
    let (word, names) = text.split_once('|').unwrap_or((text, ""));
    let Some(set) = set_of(word) else {
        return String::from_str(alloc, "no set");
    };
    for i in 0..2000u32 {
        let name = format!(in alloc; "{}", 1000 + i)?;
        match sets.add(set, name.as_bytes()) {
            Ok(_) => {}
            Err(SetFail::Fault(fault)) => {
                out.push_str(format!(in alloc; "{i} fault {} ", fault.no)?.as_str())?;
                break;
            }
            Err(SetFail::Memory) => return Err(AllocError),
        }
    }
    for name in names.split('|') {
        push_offer(alloc, &mut out, &mut sets, word, name)?;
    }
    Ok(out)
}

/// `empty|SET|SET ..`: the set that is refused for having no member, before each of these gets one, and at the end.
pub fn empty_told(alloc: Global, text: &str) -> Result<String, AllocError> {
    let mut sets = Sets::new(alloc)?;
    let mut out = String::new(alloc);
    for word in text.split('|') {
        push_finish(alloc, &mut out, &sets)?;
        let Some(set) = set_of(word) else {
            return String::from_str(alloc, "no set");
        };
        match sets.add(set, b"2020") {
            Ok(_) => {}
            Err(SetFail::Fault(_)) => {}
            Err(SetFail::Memory) => return Err(AllocError),
        }
    }
    push_finish(alloc, &mut out, &sets)?;
    Ok(out)
}

/// Appends the number of the set that is refused, or that none is.
fn push_finish(alloc: Global, out: &mut String, sets: &Sets) -> Result<(), AllocError> {
    match sets.finish() {
        Ok(()) => out.push_str("none"),
        Err(fault) => out.push_str(format!(in alloc;
            "fault {} of {}, ",
            fault.no, fault.set
        )?.as_str()),
    }
}
