//! A line of the file of cases.

/// What a line says.
#[derive(Clone, Copy)]
pub struct Case<'a> {
    /// The file of the statements of the sets.
    pub sets: &'a str,
    /// Written factors have 9 decimal places, and not 6.
    pub is_finer: bool,
    /// The words of the equations of which rows are printed, with spaces between; empty for all.
    pub equations: &'a str,
    /// It is said of each row whether it defines a variable.
    pub tells_definitions: bool,
    /// The statements of parameters.
    pub statements: &'a str,
}

/// The case of a line `SETS|PLACES|EQUATIONS|STATEMENTS`, where `!` before the equations asks which rows define a variable.
pub fn read_case(line: &str) -> Case<'_> {
    let (sets, rest) = line.split_once('|').unwrap_or((line, ""));
    let (places, rest) = rest.split_once('|').unwrap_or((rest, ""));
    let (equations, statements) = rest.split_once('|').unwrap_or((rest, ""));
    Case {
        sets,
        is_finer: places == "9",
        equations: equations.strip_prefix('!').unwrap_or(equations),
        tells_definitions: equations.starts_with('!'),
        statements,
    }
}
