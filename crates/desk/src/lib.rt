//! Answers requests: the text that is said to a line.
#![tactic(auto)]

mod checks;
mod questions;
mod replies;
mod reply;

pub use checks::answer_request;
pub use questions::answer_question;
pub use replies::{is_passed_over, refusal, reply_to};
pub use reply::Reply;
