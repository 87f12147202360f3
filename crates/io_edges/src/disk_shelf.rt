// The system's files.
ghost use Rattle.std.specs.Prelude.{◌≡◌, ◌≢◌, ◌≤◌, [], true, false, length, None, IfOk, OnOk, OnErr, IsErrOf};
ghost use Rattle.io_edges.specs.Disk.{opened, taken_by, with_fault};

use crate::records::ReadRecord;
use crate::traits::{Failed, OpenFault, Shelf};
use std::fs;
use std::io::{ErrorKind, Read};
use std::marker::Model;
use std::rt::Files;

/// The system's files, by path. It tells nothing of them but what it moved. Each error of the system is a fault, also
/// where a file is missing; out of memory, where the system reports it as a file is opened, is none.
#[derive(Drop)]
pub struct DiskShelf<'a, R: Files> {
    rt: &'a R,
    // The begun file; `None` before any call of `begin`, and after a refused one.
    file: Option<R::File>,
    faults: u64,
    begins: u64,
    taken: u64,
    moved: ReadRecord,
}

impl<'a, R: Files> Model for DiskShelf<'a, R> {
    ghost use Rattle.io_edges.specs.Disk.{DiskState};

    ghost Value = { DiskState };

    ghost view = { λ s. record { faults = s.faults; begins = s.begins; taken = s.taken; moved = s.moved.moved } };
}

impl<'a, R: Files> DiskShelf<'a, R> {
    /// A shelf over the system's files, with no file begun.
    pub fn new(rt: &'a R) -> DiskShelf<'a, R>
        ensures { result ≡ record { faults = 0; begins = 0; taken = 0; moved = [] } }
    {
        DiskShelf {
            rt,
            file: None,
            faults: 0,
            begins: 0,
            taken: 0,
            moved: ReadRecord::new(),
        }
    }
}

impl<'a, R: Files> Shelf for DiskShelf<'a, R> {
    ghost files = { λ _. None };

    ghost rest = { λ _. None };

    ghost faults = { λ shelf. shelf.faults };

    ghost begins = { λ shelf. shelf.begins };

    ghost taken = { λ shelf. shelf.taken };

    ghost moved = { λ shelf. shelf.moved };

    ghost tells_rest = { λ shelf told. told };

    /// Opens the file of that path.
    fn begin(&mut self, name: &str) -> Result<(), OpenFault>
        ensures ok { OnOk result (self.new ≡ opened self.old name.now true) }
        ensures memory { IsErrOf result OpenFault.Memory → self.new ≡ opened self.old name.now false }
        ensures failed { IsErrOf result OpenFault.Failed → self.new ≡ with_fault (opened self.old name.now false) }
        ensures told { result ≢ Err OpenFault.NoFile }
        ensures faults { self.old.faults ≤ self.new.faults }
    {
        self.begins = self.begins.saturating_add(1);
        self.taken = 0;
        self.file = None;
        let opening = fs::open(self.rt, name);
        self.moved.note_begin(name.as_bytes(), opening.is_ok());
        match opening {
            Ok(file) => {
                self.file = Some(file);
                Ok(())
            }
            Err(e) if e.kind() == ErrorKind::OutOfMemory => Err(OpenFault::Memory),
            Err(_) => {
                self.faults = self.faults.saturating_add(1);
                Err(OpenFault::Failed)
            }
        }
    }

    /// One read of the system. Where no file is begun it answers 0.
    fn read(&mut self, room: &mut [u8]) -> Result<usize, Failed>
        ensures fits { IfOk result (λ n. n ≤ length room.new) }
        ensures ok { IfOk result
            (λ n. self.new ≡ taken_by self.old n room.new) }
        ensures err { OnErr result (self.new ≡ with_fault self.old) }
        ensures faults { self.old.faults ≤ self.new.faults }
    {
        let outcome = match &mut self.file {
            Some(file) => file.read(room),
            None => Ok(0),
        };
        match outcome {
            Ok(n) => {
                self.taken = self.taken.saturating_add(n as u64);
                self.moved.note_read(room, n);
                Ok(n)
            }
            Err(_) => {
                self.faults = self.faults.saturating_add(1);
                Err(Failed)
            }
        }
    }
}
