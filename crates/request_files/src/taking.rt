// What takes the bytes of a file.
ghost use Rattle.std.specs.Prelude.{◌≡◌, ◌+◌, ◌≤◌, ◌++◌, ℕ, List, [], length, IfOk, OnOk};
ghost use Rattle.mathprog_data.specs.Pieces.{StandsFor};

use mathprog_data::PieceReader;
use std::alloc::{AllocError, Global};

/// What takes the bytes of a file, piece by piece, up to 64 MiB in all.
pub trait Taker: Drop {
    /// It stands for these bytes.
    ghost holds: { Self → List ℕ → Type 0 };

    /// One that took nothing yet. Refuses only where memory runs out.
    fn start(alloc: Global) -> Result<Self, AllocError>
        ensures { IfOk result (λ taker. holds taker []) };

    /// Takes the bytes that follow. Refuses only where memory runs out.
    fn take_piece(&mut self, piece: &[u8]) -> Result<(), AllocError>
        requires { (bytes : List ℕ) × holds self.old bytes × (length bytes + length piece.now ≤ 67108864) }
        ensures { OnOk result ((bytes : List ℕ) → holds self.old bytes → holds self.new (bytes ++ piece.now)) };
}

/// Holds the bytes themselves.
impl Taker for Vec<u8> {
    ghost holds = { λ taker bytes. taker.items ≡ bytes };

    fn start(alloc: Global) -> Result<Self, AllocError> {
        Ok(Vec::new(alloc))
    }

    fn take_piece(&mut self, piece: &[u8]) -> Result<(), AllocError> {
        self.extend_from_slice(piece)
    }
}

/// Stands for the text of the bytes. What the text says, or its fault, is told when the reader ends.
impl Taker for PieceReader {
    ghost holds = { StandsFor };

    fn start(alloc: Global) -> Result<Self, AllocError> {
        PieceReader::new(alloc)
    }

    fn take_piece(&mut self, piece: &[u8]) -> Result<(), AllocError> {
        self.feed(piece)
    }
}
