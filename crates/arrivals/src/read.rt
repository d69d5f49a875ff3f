//! The request about a received block or message that a line is.
ghost use Rattle.tokens.specs.Reads.{Reads};
ghost use Rattle.arrivals.specs.Lines.{written_arrival, NoArrival};

use crate::arrival::Arrival;
use crate::words::{next, receive};
use std::alloc::Global;
use tokens::{Fault, Piece, word};

/// The request that the line is written as.
pub fn read_arrival(heap: Global, line: &str) -> Result<Arrival, Fault>
    ensures { Reads written_arrival NoArrival line.now result }
{
    let (verb, rest) = word(Piece {
        text: line,
        column: 0,
    })?;
    match verb.text {
        "receive" => receive(heap, rest),
        "next" => next(heap, rest),
        _ => Err(Fault::Shape),
    }
}
