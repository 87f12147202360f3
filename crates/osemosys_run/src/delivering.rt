// What is due is sent: an answer, or the equations of a model.
ghost use Rattle.std.specs.Prelude.{◌≤◌};
ghost use Rattle.osemosys_run.specs.Sending.{Delivers, sent};
ghost use Rattle.osemosys_run.specs.Replies.{CanBeSent, DueForReply, IsAsMade};

use crate::equations::write_equations;
use crate::reply::Reply;
use crate::sending::send_answer;
use command_answers::Status;
use io_edges::Sink;
use std::alloc::Global;

/// Writes what is due.
pub fn deliver<K: Sink>(alloc: Global, reply: Reply, out: &mut K) -> Status
    requires { CanBeSent reply }
    ensures delivers { Delivers (IsAsMade reply) (DueForReply reply) result (sent K.Sink out.old) (sent K.Sink out.new) }
    ensures faults { K.faults out.old ≤ K.faults out.new }
{
    match reply {
        Reply::Told(answer) => send_answer(answer, out),
        Reply::Equations(model, places) => write_equations(alloc, &model, places, out),
    }
}
