//! Answers lines: calls on a bank that stays open between lines, requests about what arrived, and all that a desk answers.
#![tactic(auto)]

mod replies;
mod state;

pub use state::Desk;
