//! The answers to requests as lines of text.
ghost use Rattle.std.specs.Prelude.{◌≡◌, IfOk, string_bytes};
ghost use Rattle.block.specs.Verdicts.{answer};
ghost use Rattle.desk.specs.Lines.{check_line, Answered};

use crate::questions::answer_question;
use block::{BlockFault, Verdict, check};
use requests::Request;
use std::alloc::{AllocError, Global};

/// The line that answers a check.
fn verdict_line(
    heap: Global,
    id: &str,
    verdict: Result<Verdict, BlockFault>,
) -> Result<String, AllocError>
    ensures { IfOk result (λ s. string_bytes s ≡ check_line id.now (answer verdict)) }
{
    match verdict {
        Ok(found) => format!(in heap; "check {id} = 0 {found}"),
        Err(fault) => {
            let number = fault.number();
            format!(in heap; "check {id} = {number} -")
        }
    }
}

/// The line that answers a request, without its line feed.
pub fn answer_request(heap: Global, request: Request) -> Result<String, AllocError>
    ensures { IfOk result (λ s. Answered request (string_bytes s)) }
{
    match request {
        Request::Check { id, depth, block } => verdict_line(heap, &id, check(&block, depth)),
        Request::AtPower(question) => answer_question(heap, question),
        Request::AtDual(question) => answer_question(heap, question),
        Request::AtExponent(question) => answer_question(heap, question),
    }
}
