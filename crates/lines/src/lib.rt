// Lines from standard input and lines to standard output, each by way of a block.

#![tactic(auto)]

pub mod block;
pub mod failure;
pub mod input;
pub mod output;
pub mod place;
pub mod turn;
