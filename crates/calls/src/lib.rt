//! Calls on a bank of dividers as lines of text: which line is which call.
#![tactic(auto)]

mod call;
mod read;
mod words;

pub use call::Call;
pub use read::read_call;
