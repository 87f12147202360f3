//! The data of a case.

use crate::cases::Case;
use mathprog_data::read_blocks;
use param_tables::{ModelData, build, sets_of};
use std::{fs, io};

/// The file with a statement for each parameter that is used in all data, which gives it a default.
const DEFAULTS: &str = "defaults";

/// The data of the sets' file, of the case's statements, and of a default for each parameter of which they say nothing. None where they
/// are refused.
pub fn model_of(rt: &HostRuntime, case: &Case<'_>) -> io::Result<Option<ModelData>> {
    let mut text = fs::read_to_string(rt, case.sets)?;
    text.push_str(case.statements)?;
    text.push('\n')?;
    let defaults = fs::read_to_string(rt, DEFAULTS)?;
    for line in defaults.lines() {
        let (beginning, _) = line.split_once("default").unwrap_or((line, ""));
        if !case.statements.contains(beginning) {
            text.push_str(line)?;
            text.push('\n')?;
        }
    }
    if text.len() > 1_000_000 {
        return Ok(None);
    }
    let Ok(blocks) = read_blocks(rt.alloc(), text.as_bytes()) else {
        return Ok(None);
    };
    match sets_of(rt.alloc(), &blocks) {
        Ok(sets) => Ok(build(rt.alloc(), &blocks, sets).ok()),
        Err(_) => Ok(None),
    }
}
