//! Requests as lines of text: which line is which request.
#![tactic(auto)]

mod questions;
mod read;
mod request;
mod requested;

pub use read::read_request;
pub use request::Question;
pub use requested::Request;
