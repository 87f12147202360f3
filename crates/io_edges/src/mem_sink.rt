// What was written, in memory.
ghost use Rattle.std.specs.Prelude.{◌≡◌, ◌↔◌, ◌-◌, ◌^◌, ◌≤◌, ◌<◌, ◌⊎◌, [], length, min, take, IsTrue, Some, IfOk, OnErr, IsErr};
ghost use Rattle.io_edges.specs.Memory.{fails_next, written_on, write_failed};

use crate::failing::Failing;
use crate::traits::{Failed, Sink};
use std::alloc::{AllocError, Global};
use std::marker::Model;

/// A place to write to in memory, with room for a number of bytes, which takes whole pieces or parts of
/// them. The calls of `write` whose numbers it was given fail, counted from 1, and so does a write of a
/// piece that isn't empty into no room; no others.
#[derive(Drop)]
pub struct MemSink {
    bytes: Vec<u8>,
    room: usize,
    // How many bytes a call of `write` takes at most; at least 1.
    most: usize,
    failing: Failing,
}

impl Model for MemSink {
    ghost use Rattle.std.specs.Prelude.{◌≤◌, vec_len, vec_capacity};
    ghost use Rattle.io_edges.specs.Memory.{SinkState};

    ghost Value = { SinkState };

    ghost view = { λ s. record {
      room = s.room;
      written = s.bytes.items;
      most = s.most;
      failing = s.failing.numbers.items;
      calls = s.failing.calls;
      faults = s.failing.faults;
    } };

    ghost invariant = { λ s. (vec_len s.bytes ≤ s.room) × (s.room ≤ vec_capacity s.bytes) × (1 ≤ s.most) };
}

impl MemSink {
    /// A sink with room for `room` bytes, taken now, and nothing written, which takes all of a piece
    /// that fits. `failing` has the numbers of the calls that fail. Refuses only where memory runs out.
    pub fn new(alloc: Global, room: usize, failing: &[u64]) -> Result<MemSink, AllocError>
        ensures { IfOk result (λ sink. sink ≡ record {
          room = room;
          written = [];
          most = 2 ^ 64 - 1;
          failing = failing.now;
          calls = 0;
          faults = 0;
        }) }
    {
        MemSink::in_pieces(alloc, room, failing, usize::MAX)
    }

    /// The same, but a call of `write` takes at most `most` bytes.
    pub fn in_pieces(
        alloc: Global,
        room: usize,
        failing: &[u64],
        most: usize,
    ) -> Result<MemSink, AllocError>
        requires moves { 1 ≤ most }
        ensures { IfOk result (λ sink. sink ≡ record {
          room = room;
          written = [];
          most = most;
          failing = failing.now;
          calls = 0;
          faults = 0;
        }) }
    {
        Ok(MemSink {
            bytes: Vec::with_capacity(alloc, room)?,
            room,
            most,
            failing: Failing::new(alloc, failing)?,
        })
    }

    /// The bytes that were written, in order.
    pub fn bytes(&self) -> &[u8]
        ensures { result.now ≡ self.now.written }
    {
        &self.bytes
    }
}

impl Sink for MemSink {
    ghost written = { λ sink. Some sink.written };

    ghost faults = { λ sink. sink.faults };

    ghost accepted = { λ sink. sink.written };

    /// Takes the prefix of the piece that fits, in no more bytes than a call takes. It needs no memory.
    fn write(&mut self, piece: &[u8]) -> Result<usize, Failed>
        ensures count { IfOk result (λ n. n
            ≡ min self.old.most (min (length piece.now) (self.old.room - length self.old.written))) }
        ensures goes_on { IfOk result (λ n. 0 < length piece.now → 0 < n) }
        ensures ok { IfOk result (λ n. self.new ≡ written_on self.old (take n piece.now)) }
        ensures err { OnErr result (self.new ≡ write_failed self.old) }
        ensures faults { self.old.faults ≤ self.new.faults }

        // When it fails.
        ensures fails { IsErr result ↔ (IsTrue (fails_next self.old.failing self.old.calls)
            ⊎ ((0 < length piece.now) × (self.old.room ≤ length self.old.written))) }
    {
        self.failing.call()?;
        let n = piece.len().min(self.room - self.bytes.len()).min(self.most);
        if n == 0 && !piece.is_empty() {
            return Err(self.failing.fault());
        }
        match self.bytes.extend_from_slice(&piece[..n]) {
            Ok(()) => Ok(n),
            Err(_) => unreachable!(),
        }
    }
}
