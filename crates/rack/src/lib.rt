//! Banks that are chosen while a program runs: one of two banks, and up to 8 banks of one lane in a row.
#![tactic(auto)]

mod choice;
mod kind;
mod making;
mod row;
mod single;

pub use choice::Choice;
pub use kind::{Divider, Kind};
pub use making::Rack;
pub use row::Row;
pub use single::Single;
