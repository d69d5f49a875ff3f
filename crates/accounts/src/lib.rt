//! The lines that give account of messages and blocks that have come in.
#![tactic(auto)]

mod hex;
mod items;
mod receiving;

pub use items::next_line;
pub use receiving::{at_most_one_line, receive_line};
