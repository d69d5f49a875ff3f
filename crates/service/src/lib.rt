//! Serves a reader's lines: each is replied to, and the replies are printed.
#![tactic(auto)]

mod counts;
mod replier;
mod serving;

pub use replier::{Replier, Requests};
pub use serving::serve;
