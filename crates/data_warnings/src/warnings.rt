//! The text of all warnings.

ghost use Rattle.std.specs.Prelude.{◌≡◌, IfOk};
ghost use Rattle.mathprog_data.specs.BlocksView.{blocks_told};
ghost use Rattle.data_warnings.specs.Findings.{findings};
ghost use Rattle.data_warnings.specs.Lines.{lines_text};
ghost use Rattle.data_warnings.specs.StorageUsers.{storage_users};

use crate::findings::findings;
use crate::lines::lines_text;
use crate::storage_users::storage_users;
use mathprog_data::Blocks;
use param_tables::ModelData;
use std::alloc::{AllocError, Global};

/// What is legal in the data and probably wrong: a line for each finding, by the rules in their order, of each rule the members in the
/// order of their sets, and once for all years of the same members, or of what is so by default once for all technologies or
/// emissions of a region; then a line for each technology that charges or discharges a storage by the blocks, which say what the data don't keep;
/// then a line with the number of findings. Lines that end in `no plan` say that no plan exists. It may run out of memory.
pub fn warnings_text(
    alloc: Global,
    model: &ModelData,
    blocks: &Blocks,
) -> Result<Vec<u8>, AllocError>
    ensures { IfOk result (λ text. text.items ≡ lines_text model.now.facts.sets (findings model.now) (storage_users model.now.facts.sets (blocks_told blocks.now))) }
{
    let found = findings(alloc, model)?;
    let users = storage_users(alloc, model.sets(), blocks)?;
    lines_text(alloc, model.sets(), found.as_slice(), users.as_slice())
}
