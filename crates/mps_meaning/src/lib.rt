//! What a text in the free MPS format says: a linear program. No code stands here, only definitions and what they
//! come to on examples; the format is that of https://lpsolve.sourceforge.net/5.5/mps-format.htm, "free MPS".
#![tactic(auto)]
