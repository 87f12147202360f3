// What was moved through the calls of a shelf or a sink. Only clauses read it, and it costs nothing.
ghost use Rattle.std.specs.Prelude.{◌≡◌, ◌++◌, ℕ, List, [], take};
ghost use Rattle.std.specs.Borrow.{ftrue};
ghost use Rattle.io_edges.specs.Moved.{MovedFile, with_begin, with_read};

use std::marker::{Model, PhantomData};

/// The files that were begun, and what was read of each.
#[derive(Drop)]
pub(crate) struct ReadRecord {
    marker: PhantomData<u8>,
    pub ghost moved: { List MovedFile },
}

impl Model for ReadRecord {
    ghost also_owns = { λ _. ftrue };
}

impl ReadRecord {
    pub(crate) fn new() -> ReadRecord
        ensures { result.moved ≡ [] }
    {
        ReadRecord {
            marker: PhantomData,
        }
    }

    // Notes a call of `begin`, and whether the file was begun.
    pub(crate) fn note_begin(&mut self, _name: &[u8], _was_begun: bool)
        ensures { self.new.moved ≡ with_begin self.old.moved _name.now _was_begun }
    {}

    // Notes a call of `read` with this room, which answered this count.
    pub(crate) fn note_read(&mut self, _room: &[u8], _count: usize)
        ensures { self.new.moved ≡ with_read self.old.moved _count _room.now }
    {}
}

/// The bytes that were taken.
#[derive(Drop)]
pub(crate) struct WriteRecord {
    marker: PhantomData<u8>,
    pub ghost accepted: { List ℕ },
}

impl Model for WriteRecord {
    ghost also_owns = { λ _. ftrue };
}

impl WriteRecord {
    pub(crate) fn new() -> WriteRecord
        ensures { result.accepted ≡ [] }
    {
        WriteRecord {
            marker: PhantomData,
        }
    }

    // Notes a call of `write` with this piece, which answered this count.
    pub(crate) fn note_write(&mut self, _piece: &[u8], _count: usize)
        ensures { self.new.accepted ≡ self.old.accepted ++ take _count _piece.now }
    {}
}
