// The standard output.
ghost use Rattle.std.specs.Prelude.{◌≡◌, ◌≤◌, ◌<◌, ◌++◌, [], length, take, None, IfOk, OnErr};
ghost use Rattle.io_edges.specs.Count.{counted};

use crate::records::WriteRecord;
use crate::traits::{Failed, Sink};
use std::marker::Model;

/// The standard output, with no buffer of its own: what a call has taken, the system has. It tells
/// nothing of what was written there, but what it took. Each error of the system is a fault, and so is a write that takes
/// nothing of a piece that isn't empty.
#[derive(Drop)]
pub struct OutSink<'a, R> {
    rt: &'a R,
    faults: u64,
    accepted: WriteRecord,
}

impl<'a, R> Model for OutSink<'a, R> {
    ghost use Rattle.io_edges.specs.Disk.{OutState};

    ghost Value = { OutState };

    ghost view = { λ s. record { faults = s.faults; accepted = s.accepted.accepted } };
}

impl<'a, R> OutSink<'a, R> {
    /// The standard output, with no fault so far.
    pub fn new(rt: &'a R) -> OutSink<'a, R>
        ensures { result ≡ record { faults = 0; accepted = [] } }
    {
        OutSink {
            rt,
            faults: 0,
            accepted: WriteRecord::new(),
        }
    }
}

impl<'a, R: Print> Sink for OutSink<'a, R> {
    ghost written = { λ _. None };

    ghost faults = { λ sink. sink.faults };

    ghost accepted = { λ sink. sink.accepted };

    /// One write of the system.
    fn write(&mut self, piece: &[u8]) -> Result<usize, Failed>
        ensures fits { IfOk result (λ n. n ≤ length piece.now) }
        ensures goes_on { IfOk result (λ n. 0 < length piece.now → 0 < n) }
        ensures ok { IfOk result (λ n. self.new
            ≡ record self.old { accepted = self.old.accepted ++ take n piece.now }) }
        ensures err { OnErr result (self.new ≡ record self.old { faults = counted self.old.faults }) }
        ensures faults { self.old.faults ≤ self.new.faults }
    {
        match self.rt.write_some(piece) {
            Ok(n) if n > 0 || piece.is_empty() => {
                self.accepted.note_write(piece, n);
                Ok(n)
            }
            _ => {
                self.faults = self.faults.saturating_add(1);
                Err(Failed)
            }
        }
    }
}
