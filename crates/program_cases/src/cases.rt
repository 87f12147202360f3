//! The lines of the file of cases: `NAME|SHOWN|WORD|WORD..`. `SHOWN` is `all`, the number of lines that are shown from the beginning,
//! patterns of lines, or `stages`. Empty lines and those that begin with `#` are no cases.

use std::alloc::{AllocError, Global};

/// What a line says.
#[derive(Drop)]
pub struct Case<'a> {
    /// What the case shows, which is printed.
    pub name: &'a str,
    /// What of the text is printed.
    pub shown: &'a str,
    /// The words of the call.
    pub words: Vec<String>,
}

/// The line is a case.
pub fn is_case(line: &str) -> bool {
    !line.is_empty() && !line.starts_with('#')
}

/// What the line says. Refuses only where memory runs out.
pub fn read_case<'a>(alloc: Global, line: &'a str) -> Result<Case<'a>, AllocError> {
    let mut fields = line.split('|');
    let name = fields.next().unwrap_or("");
    let shown = fields.next().unwrap_or("");
    let mut words = Vec::new(alloc);
    for word in fields {
        words.push(String::from_str(alloc, word)?)?;
    }
    Ok(Case { name, shown, words })
}
