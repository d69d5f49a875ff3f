//! The line that tells what receiving a block came to.
ghost use Rattle.std.specs.Prelude.{◌≡◌, ◌++◌, Some, IfOk, string_bytes, OnOk};
ghost use Rattle.reception.specs.Reception.{answer};
ghost use Rattle.accounts.specs.Receive.{or_dash, shown_refusal, shown_answer, shown_message, receive_line as receive_line_of, Told, OneLine};

use crate::hex::write_bytes;
use receiver::receive;
use reception::{ReceiveFault, Refusal};
use std::alloc::{AllocError, Global};
use std::fmt;

/// The byte that a message buffer is filled with, so that one that is left as it was can be told.
const PATTERN: u8 = 0xa5;

/// A lane or a place, or `-` for none.
#[derive(Clone, Copy)]
struct OrDash(Option<usize>);

impl fmt::Display for OrDash {
    ghost output = { λ d. Some (or_dash d.0) };

    fn fmt<W: fmt::Write>(&self, f: &mut fmt::Formatter<W>) -> fmt::Result {
        match self.0 {
            Some(number) => write!(f, "{number}"),
            None => f.write_str("-"),
        }
    }
}

/// Writes the number, the layer, and the lane and place of a fault behind the text.
fn write_refusal(text: &mut String, refusal: Refusal) -> Result<(), AllocError>
    ensures { OnOk result (string_bytes text.new ≡ string_bytes text.old ++ shown_refusal refusal) }
{
    let Refusal {
        number,
        layer,
        spot,
    } = refusal;
    let lane = OrDash(spot.lane());
    let place = OrDash(spot.place());
    write!(text, "{number} {layer} {lane} {place}")
}

/// Writes the two counts of a success behind the text, or the fault, beside which nothing is counted.
fn write_answer(
    text: &mut String,
    outcome: Result<(usize, usize), ReceiveFault>,
) -> Result<(), AllocError>
    ensures { OnOk result (string_bytes text.new ≡ string_bytes text.old ++ shown_answer (answer outcome)) }
{
    match outcome {
        Ok((wrong, packets)) => write!(text, "0 - - - wrong={wrong} packets={packets}"),
        Err(fault) => {
            write_refusal(text, fault.refusal())?;
            text.push_str(" wrong=- packets=-")
        }
    }
}

/// Writes the message behind the text if it was received, and otherwise that the buffer is as before.
fn write_message(
    text: &mut String,
    outcome: Result<(usize, usize), ReceiveFault>,
    message: &[u8],
) -> Result<(), AllocError>
    ensures { OnOk result (string_bytes text.new ≡ string_bytes text.old ++ shown_message (answer outcome) message.now) }
{
    match outcome {
        Ok(_) | Err(ReceiveFault::Packets(_)) => write_bytes(text, message),
        Err(ReceiveFault::Block(_) | ReceiveFault::MessageLength | ReceiveFault::Lane(_)) => {
            text.push_str("asbefore")
        }
    }
}

/// The line for an answer, and what the message buffer holds then.
fn answer_line(
    heap: Global,
    id: &str,
    outcome: Result<(usize, usize), ReceiveFault>,
    message: &[u8],
) -> Result<String, AllocError>
    ensures { IfOk result (λ s. string_bytes s ≡ receive_line_of id.now (answer outcome) message.now) }
{
    let mut text = format!(in heap; "receive {id} = ")?;
    write_answer(&mut text, outcome)?;
    text.push_str(" message=")?;
    write_message(&mut text, outcome, message)?;
    Ok(text)
}

/// Receives a block into a message buffer of pattern bytes, and tells what came of it.
pub fn receive_line(
    heap: Global,
    id: &str,
    depth: usize,
    length: usize,
    block: &[u8],
) -> Result<String, AllocError>
    ensures { IfOk result (λ s. Told id.now depth length block.now (string_bytes s)) }
{
    let mut message = vec![in heap; PATTERN; length]?;
    let outcome = receive(block, message.as_mut_slice(), depth);
    answer_line(heap, id, outcome, message.as_slice())
}

/// At most one line is right for a block: a theorem, with nothing to compute.
pub fn at_most_one_line()
    ensures { OneLine }
{}
