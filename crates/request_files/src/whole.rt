// A file that is read to its end.
ghost use Rattle.std.specs.Prelude.{◌≡◌, ℕ, List, [], OnOk, IfErr, IfOk, vec_len};
ghost use Rattle.request_files.specs.InTurn.{Ends};
ghost use Rattle.request_files.specs.Reading.{BeganOne, IsWholeFile};
ghost use Rattle.request_files.specs.Sights.{seen};
ghost use Rattle.request_files.specs.declared.whole.ReadEnd.TheVariants.{Memory};

use crate::taking::Taker;
use io_edges::{OpenFault, Shelf};
use std::alloc::{AllocError, Global};

/// The most bytes that a file may have: 64 MiB.
const MOST_BYTES: usize = 67_108_864;

/// The bytes that one read may take.
const ROOM: usize = 65_536;

/// Why a file wasn't read to its end.
#[derive(Clone, Copy)]
pub enum ReadEnd {
    /// The shelf tells its files, and none has that name.
    NoFile,
    /// The shelf failed.
    Failed,
    /// The file has more than 64 MiB.
    TooLong,
    /// Memory ran out.
    Memory,
}

impl From<AllocError> for ReadEnd {
    ghost from_gives = { λ _ e. e ≡ Memory };

    fn from(_error: AllocError) -> ReadEnd {
        ReadEnd::Memory
    }
}

impl From<OpenFault> for ReadEnd {
    ghost use Rattle.std.specs.Prelude.{◌≡◌};
    ghost use Rattle.request_files.specs.ReadEnds.{end_at};

    ghost from_gives = { λ fault e. e ≡ end_at fault };

    fn from(fault: OpenFault) -> ReadEnd {
        match fault {
            OpenFault::NoFile => ReadEnd::NoFile,
            OpenFault::Failed => ReadEnd::Failed,
            OpenFault::Memory => ReadEnd::Memory,
        }
    }
}

/// Reads a file to its end, in rooms of 65,536 bytes, and hands its bytes over. Every turn takes a byte, ends the file or fails.
pub fn read_into<S: Shelf, T: Taker>(
    alloc: Global,
    name: &str,
    shelf: &mut S,
    taker: &mut T,
) -> Result<(), ReadEnd>
    requires { T.holds taker.old [] }
    ensures whole { OnOk result ((bytes : List ℕ) × IsWholeFile (seen S.Shelf shelf.old) (seen S.Shelf shelf.new) name.now bytes × T.holds taker.new bytes) }
    ensures stops { IfErr result (λ end. Ends end (seen S.Shelf shelf.old) (seen S.Shelf shelf.new) name.now) }
    ensures began { BeganOne (seen S.Shelf shelf.old) (seen S.Shelf shelf.new) }
{
    shelf.begin(name)?;
    let mut room = zeros(alloc, ROOM)?;
    let mut size: usize = 0;
    'rooms: loop {
        let Ok(count) = shelf.read(&mut room) else {
            return Err(ReadEnd::Failed);
        };
        if count == 0 {
            return Ok(());
        }
        if count > MOST_BYTES - size {
            return Err(ReadEnd::TooLong);
        }
        taker.take_piece(&room[..count])?;
        size += count;
    }
}

// A room of so many bytes.
fn zeros(alloc: Global, count: usize) -> Result<Vec<u8>, AllocError>
    ensures { IfOk result (λ room. vec_len room ≡ count) }
{
    vec![in alloc; 0u8; count]
}
