//! The reply to a line.
ghost use Rattle.std.specs.Prelude.{◌≡◌, IfOk, IfSome, string_bytes};
ghost use Rattle.desk.specs.Lines.{refused_line};
ghost use Rattle.desk.specs.Said.{passed_over, Said};

use crate::checks::answer_request;
use crate::reply::Reply;
use requests::read_request;
use std::alloc::{AllocError, Global};
use std::fmt::Display;

/// The line that tells why the line with this number is refused.
pub fn refusal<D: Display + Drop>(heap: Global, line: u64, why: D) -> Result<String, AllocError>
    ensures { IfOk result (λ s. IfSome (D.output why) (λ bs. string_bytes s ≡ refused_line line bs)) }
{
    format!(in heap; "line {line} refused: {why}")
}

/// Whether a line is passed over: it is empty, or begins with `#`.
pub fn is_passed_over(line: &str) -> bool
    ensures { result ≡ passed_over line.now }
{
    line.is_empty() || line.starts_with('#')
}

/// What is said to the line with this number.
pub fn reply_to(heap: Global, number: u64, line: &str) -> Result<Reply, AllocError>
    ensures { IfOk result (λ reply. Said number line.now reply) }
{
    if is_passed_over(line) {
        return Ok(Reply::Nothing);
    }
    match read_request(heap, line) {
        Ok(request) => Ok(Reply::Answer(answer_request(heap, request)?)),
        Err(fault) => Ok(Reply::Refusal(refusal(heap, number, fault)?)),
    }
}
