// What was written, in memory, where a call fails only if there is no room left.
ghost use Rattle.std.specs.Prelude.{◌≡◌, ◌↔◌, ◌-◌, ◌≤◌, ◌<◌, [], length, min, take, Some, IfOk, OnErr, IsErr};
ghost use Rattle.io_edges.specs.Sure.{sure_written, sure_refused};

use crate::mem_sink::MemSink;
use crate::traits::{Failed, Sink};
use std::alloc::{AllocError, Global};
use std::marker::Model;

/// A place to write to in memory, with room for a number of bytes. Writing a piece that isn't empty
/// into no room fails, and no other call.
#[derive(Drop)]
pub struct SureSink {
    // No number is in its list of calls that fail, and it takes all of a piece that fits.
    sink: MemSink,
}

impl Model for SureSink {
    ghost use Rattle.std.specs.Prelude.{◌≡◌, ◌≤◌, ◌<◌, ◌-◌, ◌^◌, [], length};
    ghost use Rattle.io_edges.specs.Sure.{SureSinkState};

    ghost Value = { SureSinkState };

    ghost view = { λ s. record {
      room = s.sink.room;
      written = s.sink.written;
      faults = s.sink.faults;
    } };

    ghost invariant = { λ s. (s.sink.failing ≡ []) × (s.sink.most ≡ 2 ^ 64 - 1)
        × (length s.sink.written ≤ s.sink.room)
        × (0 < s.sink.faults → s.sink.room ≤ length s.sink.written) };
}

impl SureSink {
    /// A sink with room for `room` bytes, taken now, and nothing written. Refuses only where memory
    /// runs out.
    pub fn new(alloc: Global, room: usize) -> Result<SureSink, AllocError>
        ensures { IfOk result (λ sink. sink ≡ record {
          room = room;
          written = [];
          faults = 0;
        }) }
    {
        Ok(SureSink {
            sink: MemSink::new(alloc, room, &[])?,
        })
    }

    /// The bytes that were written, in order.
    pub fn bytes(&self) -> &[u8]
        ensures bytes { result.now ≡ self.now.written }

        // They fit, and after a fault they fill the room.
        ensures fits { length self.now.written ≤ self.now.room }
        ensures full { 0 < self.now.faults → length self.now.written ≡ self.now.room }
    {
        self.sink.bytes()
    }
}

impl Sink for SureSink {
    ghost written = { λ sink. Some sink.written };

    ghost faults = { λ sink. sink.faults };

    ghost accepted = { λ sink. sink.written };

    /// Takes the prefix of the piece that fits. It needs no memory.
    fn write(&mut self, piece: &[u8]) -> Result<usize, Failed>
        ensures count { IfOk result
            (λ n. n ≡ min (length piece.now) (self.old.room - length self.old.written)) }
        ensures ok { IfOk result (λ n. self.new ≡ sure_written self.old (take n piece.now)) }
        ensures err { OnErr result (self.new ≡ sure_refused self.old) }
        ensures faults { self.old.faults ≤ self.new.faults }

        // When it fails.
        ensures fails { IsErr result
            ↔ ((0 < length piece.now) × (self.old.room ≤ length self.old.written)) }
    {
        self.sink.write(piece)
    }
}
