// What a caller knows of files and of the place that is written to.
ghost use Rattle.std.specs.Prelude.{◌≡◌, ◌⊎◌, ◌<◌, ◌≤◌, ◌++◌, ℕ, List, [], length, take, Option, IsSome, is_ok, IfOk, OnOk, OnErr, IsErrOf};
ghost use Rattle.io_edges.specs.Count.{counted, counted_by, Rose};
ghost use Rattle.io_edges.specs.Told.{WhereTold};
ghost use Rattle.io_edges.specs.Edges.{Lacks, Opens, Moves};
ghost use Rattle.io_edges.specs.Moved.{MovedFile, with_begin, with_read};

use std::alloc::AllocError;

/// A read or a write that failed, for a cause outside. The count of faults rose.
#[derive(Clone, Copy, Debug, PartialEq, Eq)]
pub struct Failed;

/// Why a file wasn't begun.
#[derive(Clone, Copy, Debug, PartialEq, Eq)]
pub enum OpenFault {
    /// There is no file of that name, on a shelf that tells its files.
    NoFile,
    /// A cause outside. The count of faults rose.
    Failed,
    /// Out of memory.
    Memory,
}

impl From<AllocError> for OpenFault {
    ghost use Rattle.std.specs.Prelude.{◌≡◌};
    ghost use Rattle.io_edges.specs.declared.traits.OpenFault.TheVariants.{Memory};

    ghost from_gives = { λ _ fault. fault ≡ Memory };

    fn from(_: AllocError) -> Self {
        OpenFault::Memory
    }
}

impl From<Failed> for OpenFault {
    ghost use Rattle.std.specs.Prelude.{◌≡◌};
    ghost use Rattle.io_edges.specs.declared.traits.OpenFault.TheVariants.{Failed};

    ghost from_gives = { λ _ fault. fault ≡ Failed };

    fn from(_: Failed) -> Self {
        OpenFault::Failed
    }
}

/// Files by name, one of which is read at a time, in pieces.
///
/// Every shelf tells what its calls moved (`moved`), also one that tells nothing of its files. A clause on it binds code that is
/// generic over `Shelf`, which gets bytes by these calls alone; code that knows the type could get them in another way.
pub trait Shelf {
    /// The files, each as the bytes of its name and its own; `None` where the shelf doesn't tell.
    ghost files: { Self → Option (List (List ℕ × List ℕ)) };

    /// The bytes of the begun file that aren't read yet; `None` where the shelf doesn't tell.
    ghost rest: { Self → Option (List ℕ) };

    /// How often a cause outside made a call fail.
    ghost faults: { Self → ℕ };

    /// How often `begin` was called, refused calls included.
    ghost begins: { Self → ℕ };

    /// How many bytes were read since the last call of `begin`.
    ghost taken: { Self → ℕ };

    /// For each call of `begin`, refused calls included, its name and the bytes that the reads after it moved; the newest first.
    ghost moved: { Self → List MovedFile };

    /// Begins a file: its bytes are the rest. A refused call leaves an empty rest.
    fn begin(&mut self, name: &str) -> Result<(), OpenFault>
        ensures files { files self.new ≡ files self.old }
        ensures opens { OnOk result (WhereTold (files self.old)
            (λ all. Opens all name.now (rest self.new))) }
        ensures told { IsSome (rest self.old) → IsSome (rest self.new) }
        ensures refused { OnErr result (WhereTold (rest self.new) (λ left. left ≡ [])) }

        // When each refusal comes. Running out of memory has no cause.
        ensures no_file { IsErrOf result OpenFault.NoFile → Lacks (files self.old) name.now }
        ensures no_fault { IsErrOf result OpenFault.NoFile → faults self.new ≡ faults self.old }
        ensures missing { Lacks (files self.old) name.now → ¬ Rose (faults self.old) (faults self.new)
            → IsErrOf result OpenFault.NoFile ⊎ IsErrOf result OpenFault.Memory }
        ensures failed { IsErrOf result OpenFault.Failed → Rose (faults self.old) (faults self.new) }

        // The counts.
        ensures faults { faults self.old ≤ faults self.new }
        ensures begins { begins self.new ≡ counted (begins self.old) }
        ensures taken { taken self.new ≡ 0 }
        ensures moved { moved self.new ≡ with_begin (moved self.old) name.now (is_ok result) };

    /// Moves a prefix of the rest to the beginning of the room, and answers its length. In a room that
    /// isn't empty, 0 is the end of the file. What stands after it in the room, and in the room of a
    /// refused call, is left open.
    fn read(&mut self, room: &mut [u8]) -> Result<usize, Failed>
        ensures files { files self.new ≡ files self.old }
        ensures begins { begins self.new ≡ begins self.old }
        ensures fits { IfOk result (λ n. n ≤ length room.new) }
        ensures moves { IfOk result (λ n. WhereTold (rest self.old)
            (λ left. Moves left n room.new (rest self.new))) }
        ensures taken { IfOk result (λ n. taken self.new ≡ counted_by (taken self.old) n) }
        ensures moved { IfOk result (λ n. moved self.new ≡ with_read (moved self.old) n room.new) }

        // A refused call has a cause, and takes nothing.
        ensures failed { OnErr result (Rose (faults self.old) (faults self.new)) }
        ensures rest_stays { OnErr result (rest self.new ≡ rest self.old) }
        ensures taken_stays { OnErr result (taken self.new ≡ taken self.old) }
        ensures moved_stays { OnErr result (moved self.new ≡ moved self.old) }

        ensures faults { faults self.old ≤ faults self.new };

    /// A shelf that tells its files tells the rest.
    ghost tells_rest: { (shelf : Self) → IsSome (files shelf) → IsSome (rest shelf) };
}

/// A place that is written to.
///
/// Every sink tells what its calls took (`accepted`), also one that tells nothing of what is written there. A clause on it binds code
/// that is generic over `Sink`, which hands bytes over by this call alone.
pub trait Sink {
    /// The bytes written so far; `None` where the sink doesn't tell.
    ghost written: { Self → Option (List ℕ) };

    /// How often a cause outside made a call fail.
    ghost faults: { Self → ℕ };

    /// The bytes that the calls took, in order.
    ghost accepted: { Self → List ℕ };

    /// Appends a prefix of the piece, and answers its length: at least 1 where the piece isn't empty.
    fn write(&mut self, piece: &[u8]) -> Result<usize, Failed>
        ensures fits { IfOk result (λ n. n ≤ length piece.now) }
        ensures goes_on { IfOk result (λ n. 0 < length piece.now → 0 < n) }
        ensures appends { IfOk result (λ n. WhereTold (written self.old)
            (λ bytes. written self.new ≡ Some (bytes ++ take n piece.now))) }

        ensures accepted { IfOk result (λ n. accepted self.new ≡ accepted self.old ++ take n piece.now) }

        // A refused call has a cause, and appends nothing.
        ensures failed { OnErr result (Rose (faults self.old) (faults self.new)) }
        ensures stays { OnErr result (written self.new ≡ written self.old) }
        ensures accepted_stays { OnErr result (accepted self.new ≡ accepted self.old) }

        ensures faults { faults self.old ≤ faults self.new };
}
