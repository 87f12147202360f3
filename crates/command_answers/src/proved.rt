// A proof that `check` accepts, as the commands have it that show something of it.

use exact_num::Frac;
use proof_files::Proof;

/// What the proof of an optimum is worth.
#[derive(Clone, Copy, PartialEq, Eq)]
pub struct Worth {
    /// What its plan costs.
    pub cost: Frac,
    /// No plan costs less.
    pub bound: Frac,
}

/// A proof that `check` accepts.
#[derive(Drop)]
pub struct AcceptedProof {
    pub proof: Proof,
    /// What it is worth, where it is that of an optimum.
    pub worth: Option<Worth>,
    /// What `check` says of it.
    pub said: Vec<u8>,
}
