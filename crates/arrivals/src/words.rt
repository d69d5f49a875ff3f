//! The request of each verb, from the text behind the verb.
ghost use Rattle.std.specs.Prelude.{codes};
ghost use Rattle.tokens.specs.Reads.{Reads};
ghost use Rattle.tokens.specs.Words.{spaced};
ghost use Rattle.arrivals.specs.Lines.{written_arrival, NoArrival};

use crate::arrival::Arrival;
use std::alloc::Global;
use tokens::{Fault, Piece, bytes, keyed, setting, word};

/// The length of the longest message that a request can name.
const LONGEST: u64 = 65535;

/// `receive ID depth=D msglen=N block=BYTES`, behind the verb.
pub(crate) fn receive(heap: Global, piece: Piece<'_>) -> Result<Arrival, Fault>
    ensures { Reads written_arrival NoArrival (spaced (codes "receive") piece.entry.text.now) result }
{
    let (id, rest) = word(piece)?;
    let (depth, rest) = setting(rest, "depth=", u64::MAX)?;
    let (length, rest) = setting(rest, "msglen=", LONGEST)?;
    let block = bytes(heap, keyed(rest, "block=")?)?;
    let id = String::from_str(heap, id.text)?;
    Ok(Arrival::Receive {
        id,
        depth,
        length,
        block,
    })
}

/// `next ID BYTES`, behind the verb.
pub(crate) fn next(heap: Global, piece: Piece<'_>) -> Result<Arrival, Fault>
    ensures { Reads written_arrival NoArrival (spaced (codes "next") piece.entry.text.now) result }
{
    let (id, rest) = word(piece)?;
    let message = bytes(heap, rest)?;
    let id = String::from_str(heap, id.text)?;
    Ok(Arrival::Next { id, message })
}
