//! Text as a console reads and writes it: words, numbers and bytes in hex, and why a text is refused.
#![tactic(auto)]

mod fault;
mod hex;
mod numbers;
mod piece;
mod words;

pub use fault::Fault;
pub use hex::{byte, bytes, hex_bytes, write_byte};
pub use numbers::{count, number};
pub use piece::Piece;
pub use words::{keyed, setting, word};
