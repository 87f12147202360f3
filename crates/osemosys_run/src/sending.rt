// A text into a sink, piece by piece.
ghost use Rattle.std.specs.Prelude.{◌≤◌, OnOk, OnErr};
ghost use Rattle.io_edges.specs.Count.{Rose};
ghost use Rattle.io_edges.specs.Outputs.{Took, TookPrefix};
ghost use Rattle.osemosys_run.specs.Sending.{Delivers, sent};
ghost use Rattle.osemosys_run.specs.Replies.{CanBeTold, IsTold};

use command_answers::{Answer, Status};
use io_edges::{Failed, Sink};

/// Sends the text of an answer.
pub fn send_answer<K: Sink>(answer: Answer, out: &mut K) -> Status
    requires { CanBeTold answer.status }
    ensures delivers { Delivers ⊥ (IsTold answer.status answer.text.items) result (sent K.Sink out.old) (sent K.Sink out.new) }
    ensures faults { K.faults out.old ≤ K.faults out.new }
{
    let Answer { status, text } = answer;
    match send(&text, out) {
        Ok(()) => status,
        Err(_) => Status::WriteFault,
    }
}

/// Sends a whole text: what a write leaves over is sent by the next one. A failed write ends the
/// sending, and a prefix of the text was sent by then.
pub fn send<K: Sink>(text: &[u8], out: &mut K) -> Result<(), Failed>
    ensures whole { OnOk result (Took (sent K.Sink out.old).output (sent K.Sink out.new).output text.now) }
    ensures cut { OnErr result (TookPrefix (sent K.Sink out.old).output (sent K.Sink out.new).output text.now) }
    ensures failed { OnErr result (Rose (K.faults out.old) (K.faults out.new)) }
    ensures faults { K.faults out.old ≤ K.faults out.new }
{
    let mut done = 0;
    while done < text.len() {
        done += out.write(&text[done..])?;
    }
    Ok(())
}
