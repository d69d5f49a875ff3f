//! Who replies to lines.
ghost use Rattle.std.specs.Prelude.{◌≡◌, ℕ, List, IfOk};
ghost use Rattle.desk.specs.declared.reply.Reply.{Reply as SaidReply};
ghost use Rattle.desk.specs.Said.{Said};

use desk::Reply;
use std::alloc::{AllocError, Global};

/// What a replier keeps lasts from line to line.
// A line's number and its text stay two: the text is read without the number, which only a refusal tells, and a struct would be no plainer.
pub trait Replier {
    // What may be said to a line with a number, and what is kept before and after it.
    ghost Says: { Self → ℕ → List ℕ → SaidReply → Self → Type 0 };

    /// What is said to the line with this number.
    fn reply_to(&mut self, heap: Global, number: u64, line: &str) -> Result<Reply, AllocError>
        ensures said { IfOk result (λ reply. Says self.old number line.now reply self.new) };
}

/// Replies to requests alone, and keeps nothing.
#[derive(Clone, Copy)]
pub struct Requests;

impl Replier for Requests {
    ghost Says = { λ _ n line reply _. Said n line reply };

    fn reply_to(&mut self, heap: Global, number: u64, line: &str) -> Result<Reply, AllocError> {
        desk::reply_to(heap, number, line)
    }
}
