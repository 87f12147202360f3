//! Small data sections.

use model_sets::param_numbers::USED_PARAM_COUNT;
use model_sets::param_word;
use std::alloc::{AllocError, Global};

/// A default for each parameter that is used in all data, from number 1.
const DEFAULTS: [&str; USED_PARAM_COUNT] = [
    "1", "0", "1", "0", "10", "1", "0", "1", "1", "1", "1", "0", "0", "1", "5", "2", "1", "0",
    "-1", "0", "-1", "0", "-1", "0", "0", "0", "0", "0", "0", "0", "0", "0", "0", "0", "0", "-1",
    "0", "-1",
];

/// The statements of the sets and of parameters, and a default for each parameter used in all data that has
/// none among them.
/// Refuses where memory runs out.
pub fn section(alloc: Global, sets: &str, statements: &str) -> Result<String, AllocError> {
    let mut text = String::from_str(alloc, sets)?;
    text.push('\n')?;
    text.push_str(statements)?;
    for (i, default) in DEFAULTS.iter().enumerate() {
        let word = param_word(i as u8 + 1);
        let beginning = format!(in alloc; "param {word} ")?;
        if !statements.contains(beginning.as_str()) {
            text.push_str(format!(in alloc; "\nparam {word} default {default} := ;")?.as_str())?;
        }
    }
    Ok(text)
}
