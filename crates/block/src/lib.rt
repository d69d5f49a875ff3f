//! Blocks: their depth, their lanes, and the check that each lane is a codeword.
#![tactic(auto)]

mod checking;
mod depth;
mod fault;
mod lanes;
mod shown;

pub use checking::check;
pub use depth::{Block, Depth};
pub use fault::{BlockFault, Verdict};
pub use lanes::interleaving_stands;
