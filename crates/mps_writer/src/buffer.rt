//! A buffer between a text and a sink.

ghost use Rattle.std.specs.Prelude.{◌≡◌, [], OnOk};
ghost use Rattle.io_edges.specs.Outputs.{output};
ghost use Rattle.mps_writer.specs.Steps.{Takes};

use crate::sending::MpsFail;
use io_edges::Sink;

/// With so many bytes the buffer is written.
const BUFFER: usize = 65_536;

/// Writes the buffer once it is full.
pub fn spill<K: Sink>(buffer: &mut Vec<u8>, out: &mut K) -> Result<(), MpsFail>
    ensures { Takes buffer.old.items result
        (output (K.written out.old) (K.accepted out.old))
        (output (K.written out.new) (K.accepted out.new))
        (K.faults out.old) (K.faults out.new) buffer.new.items }
{
    if buffer.len() < BUFFER {
        return Ok(());
    }
    flush(buffer, out)
}

/// Writes the whole buffer. What a write leaves over is written by the next one.
pub fn flush<K: Sink>(buffer: &mut Vec<u8>, out: &mut K) -> Result<(), MpsFail>
    ensures taken { Takes buffer.old.items result
        (output (K.written out.old) (K.accepted out.old))
        (output (K.written out.new) (K.accepted out.new))
        (K.faults out.old) (K.faults out.new) buffer.new.items }
    ensures empty { OnOk result (buffer.new.items ≡ []) }
{
    match send(buffer, out) {
        Ok(()) => {}
        Err(fail) => return Err(fail),
    }
    buffer.clear();
    Ok(())
}

/// Writes all of a text.
fn send<K: Sink>(text: &[u8], out: &mut K) -> Result<(), MpsFail>
    ensures { Takes text.now result
        (output (K.written out.old) (K.accepted out.old))
        (output (K.written out.new) (K.accepted out.new))
        (K.faults out.old) (K.faults out.new) [] }
{
    let mut sent = 0;
    while sent < text.len() {
        match out.write(&text[sent..]) {
            Ok(count) => sent += count,
            Err(_) => return Err(MpsFail::Write),
        }
    }
    Ok(())
}
