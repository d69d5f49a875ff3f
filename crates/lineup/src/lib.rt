//! Banks that are written as text: what the text says, and the bank that it asks for.
#![tactic(auto)]

mod building;
mod built;
mod kinds;
mod listing;
mod reading;

pub use building::bank_of;
pub use built::{Assembly, Built};
