//! Receiving a block: its lanes are corrected, and the packets of its message are counted.
#![tactic(auto)]

mod codeword;
mod lanes;
mod receiving;

pub use receiving::receive;
