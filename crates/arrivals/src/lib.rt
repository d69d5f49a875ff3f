//! Requests about received blocks and messages as lines of text: which line is which request.
#![tactic(auto)]

mod arrival;
mod read;
mod words;

pub use arrival::Arrival;
pub use read::read_arrival;
