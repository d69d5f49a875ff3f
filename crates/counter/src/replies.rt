//! The reply to a line.
ghost use Rattle.std.specs.Prelude.{◌≡◌, false, None, IfOk, string_bytes};
ghost use Rattle.calls.specs.Lines.{NoCall, written_call};
ghost use Rattle.session.specs.Sessions.{state_of, Called, After};
ghost use Rattle.counter.specs.Told.{told_fault as told_fault_of, Arrived, RepliedToCall, RepliedToRequest, RepliedToOther, ToldToLine, Changed};

use crate::state::Desk;
use accounts::{next_line, receive_line};
use arrivals::{Arrival, read_arrival};
use calls::{Call, read_call};
use desk::{Reply, answer_request, is_passed_over, refusal};
use requests::read_request;
use service::Replier;
use session::Session;
use std::alloc::{AllocError, Global};
use tokens::Fault;

/// Which of two faults is told: the first, unless it says that the line has another shape.
fn told_fault(first: Fault, other: Fault) -> Fault
    ensures { result ≡ told_fault_of first other }
{
    match first {
        Fault::Shape => other,
        fault => fault,
    }
}

/// The reply to a call.
fn reply_to_call(
    session: &mut Session,
    heap: Global,
    number: u64,
    call: Call,
) -> Result<Reply, AllocError>
    ensures reply { IfOk result (λ reply. RepliedToCall number call (state_of session.old) reply (state_of session.new)) }
    ensures after { After call (state_of session.old) (state_of session.new) }
{
    match session.call(heap, call)? {
        Ok(text) => Ok(Reply::Answer(text)),
        Err(objection) => Ok(Reply::Refusal(refusal(heap, number, objection)?)),
    }
}

/// The line that answers a request about a block or a message that arrived.
fn answer_arrival(heap: Global, arrival: Arrival) -> Result<String, AllocError>
    ensures { IfOk result (λ s. Arrived arrival (string_bytes s)) }
{
    match arrival {
        Arrival::Receive {
            id,
            depth,
            length,
            block,
        } => receive_line(heap, &id, depth, length, &block),
        Arrival::Next { id, message } => next_line(heap, &id, &message),
    }
}

/// The reply to a line that is neither a call nor about what arrived, for this fault.
// As the desk replies, but that another fault may be told: with that choice as a closure, both contracts would have to speak of it.
fn reply_to_request(
    heap: Global,
    number: u64,
    line: &str,
    fault: Fault,
) -> Result<Reply, AllocError>
    ensures { IfOk result (λ reply. RepliedToRequest number fault line.now reply) }
{
    match read_request(heap, line) {
        Ok(request) => Ok(Reply::Answer(answer_request(heap, request)?)),
        Err(other) => Ok(Reply::Refusal(refusal(heap, number, told_fault(fault, other))?)),
    }
}

/// The reply to a line that is no call, for this fault.
fn reply_to_other(heap: Global, number: u64, line: &str, fault: Fault) -> Result<Reply, AllocError>
    ensures { IfOk result (λ reply. RepliedToOther number fault line.now reply) }
{
    match read_arrival(heap, line) {
        Ok(arrival) => Ok(Reply::Answer(answer_arrival(heap, arrival)?)),
        Err(other) => reply_to_request(heap, number, line, told_fault(fault, other)),
    }
}

impl Desk {
    /// A desk at which no bank is open.
    pub fn new() -> Desk
        ensures { state_of result.session ≡ None }
    {
        Desk {
            session: Session::new(),
        }
    }
}

impl Replier for Desk {
    ghost Says = { λ before n line reply after. ToldToLine n line (state_of before.session) reply (state_of after.session) };

    fn reply_to(&mut self, heap: Global, number: u64, line: &str) -> Result<Reply, AllocError>
        ensures said { IfOk result (λ reply. ToldToLine number line.now (state_of self.old.session) reply (state_of self.new.session)) }
        ensures changed { Changed line.now (state_of self.old.session) (state_of self.new.session) }
    {
        if is_passed_over(line) {
            return Ok(Reply::Nothing);
        }
        match read_call(heap, line) {
            Ok(call) => reply_to_call(&mut self.session, heap, number, call),
            Err(fault) => reply_to_other(heap, number, line, fault),
        }
    }
}
