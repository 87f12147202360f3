//! A text into blocks.

ghost use Rattle.std.specs.Prelude.{◌≡◌, ◌≤◌, ℕ, List, length, Err, IfOk, IfErr, MatchResult, ◌⊎◌};
ghost use Rattle.mathprog_data.specs.declared.blocks.Mark.{Mark};
ghost use Rattle.mathprog_data.specs.declared.fault.DataFault.{DataFault};
ghost use Rattle.mathprog_data.specs.declared.fault.ReadFail.TheVariants.{Fault};
ghost use Rattle.mathprog_data.specs.BlocksView.{blocks_told};
ghost use Rattle.mathprog_data.specs.Meaning.{Blocks as SaidBlocks};
ghost use Rattle.mathprog_data.specs.TokenSlices.{IsMemory, IsFaultOrMemory};
ghost use Rattle.mathprog_data.specs.Verdicts.{Says, FaultAt};
ghost use Rattle.mathprog_data.specs.WellFormed.{AreWellFormed};

use crate::blocks::Blocks;
use crate::fault::ReadFail;
use crate::pieces::PieceReader;
use std::alloc::Global;

/// The blocks that a text says, in the order of the text. The text is a data section of GNU MathProg, in the profile of
/// docs/DATA.md, and has 64 MiB at most.
///
/// # Errors
///
/// - `Fault`: the text says nothing, and this is its first fault, with its number (those of `DataFault`), its line and its column.
/// - `Memory`: there is no memory for the blocks.
pub fn read_blocks(alloc: Global, text: &[u8]) -> Result<Blocks, ReadFail>
    requires { length text.now ≤ 67108864 }

    ensures says { IfOk result (λ blocks. Says text.now (blocks_told blocks)) }
    ensures fault { (fault : DataFault) → result ≡ Err (Fault fault) → FaultAt text.now fault.no fault.at }

    // A text that says something is never refused, and one that has a fault always with that fault.
    ensures refuses_no_blocks { (blocks : SaidBlocks) → Says text.now blocks → IfErr result IsMemory }
    ensures refuses_each_fault { (number : ℕ) (at : Mark) → FaultAt text.now number at → MatchResult result (λ _. ⊥) (IsFaultOrMemory number at) }

    // What the callers of these blocks build on.
    ensures well_formed { IfOk result (λ blocks. AreWellFormed (blocks_told blocks)) }
{
    let mut reader = PieceReader::new(alloc)?;
    reader.feed(text)?;
    reader.finish()
}

/// Every text says something or has a fault, and never both. It says one thing at most, and has one fault at most.
pub fn verdict_laws()
    ensures some { (text : List ℕ) → ((blocks : SaidBlocks) × Says text blocks) ⊎ ((number : ℕ) × (at : Mark) × FaultAt text number at) }
    ensures not_both { (text : List ℕ) (blocks : SaidBlocks) (number : ℕ) (at : Mark) → Says text blocks → FaultAt text number at → ⊥ }
    ensures one_meaning { (text : List ℕ) (blocks others : SaidBlocks) → Says text blocks → Says text others → blocks ≡ others }
    ensures one_fault { (text : List ℕ) (number other : ℕ) (at place : Mark) → FaultAt text number at → FaultAt text other place →
        (number ≡ other) × (at ≡ place) }
{}
