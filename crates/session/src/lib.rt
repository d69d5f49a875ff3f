//! A session with a bank: calls are carried out on the bank that is open, and answered line by line.
#![tactic(auto)]

mod bank_session;
mod calling;
mod objection;

pub use bank_session::Session;
pub use objection::Objection;
