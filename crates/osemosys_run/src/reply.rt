// What is to be sent for a request: an answer, or the equations of a model.
ghost use Rattle.std.specs.Prelude.{◌≡◌, IfOk};
ghost use Rattle.osemosys_run.specs.Replies.{IsOwn};

use command_answers::{Answer, Status};
use param_tables::ModelData;
use std::alloc::AllocError;

/// What is due once the files are read.
#[derive(Drop)]
pub enum Reply {
    /// A status with its text.
    Told(Answer),
    /// The named equations of a model, with written factors of so many decimal places.
    Equations(ModelData, u8),
}

/// The answer of a command. How the reading or the writing ended is no answer of one: a status that tells it would be a defect, and what
/// comes of it is what comes of all that can't go on, that memory ran out.
pub fn told(answer: Answer) -> Result<Reply, AllocError>
    ensures { IfOk result (λ reply. (reply ≡ Reply.Told answer) × IsOwn answer.status) }
{
    match answer.status {
        Status::ReadFault(_) | Status::WriteFault | Status::Memory => Err(AllocError),
        _ => Ok(Reply::Told(answer)),
    }
}
