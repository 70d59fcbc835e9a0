// Definitions (specs/) and laws (proofs/), and what document 01 numbers: kinds, causes of refusal, limits.

#![tactic(auto)]

pub mod kind;
pub mod limit;
pub mod refusal;
