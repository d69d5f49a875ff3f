//! The request that a line is.
ghost use Rattle.std.specs.Prelude.{codes};
ghost use Rattle.tokens.specs.Reads.{Reads};
ghost use Rattle.tokens.specs.Words.{spaced};
ghost use Rattle.requests.specs.Lines.{Asking, kinded, written, NoRequest};

use crate::questions::question;
use crate::requested::Request;
use std::alloc::Global;
use tokens::{Fault, Piece, bytes, keyed, setting, word};

/// The question of a verb at the kind of a letter, from what follows the letter, if anything does.
fn question_at(
    heap: Global,
    verb: &str,
    letter: &str,
    rest: Option<Piece<'_>>,
) -> Result<Request, Fault>
    requires { Asking verb.now letter.now rest }
    ensures { Reads written NoRequest (spaced verb.now (kinded letter.now rest.entry)) result }
{
    match letter {
        "p" => Ok(Request::AtPower(question(heap, verb, rest)?)),
        "d" => Ok(Request::AtDual(question(heap, verb, rest)?)),
        "e" => Ok(Request::AtExponent(question(heap, verb, rest)?)),
        _ => Err(Fault::Shape),
    }
}

/// `check ID depth=D block=HEX`, behind the verb.
fn check(heap: Global, piece: Piece<'_>) -> Result<Request, Fault>
    ensures { Reads written NoRequest (spaced (codes "check") piece.entry.text.now) result }
{
    let (id, rest) = word(piece)?;
    let (depth, rest) = setting(rest, "depth=", u64::MAX)?;
    let block = bytes(heap, keyed(rest, "block=")?)?;
    let id = String::from_str(heap, id.text)?;
    Ok(Request::Check { id, depth, block })
}

/// The request that the line is written as.
pub fn read_request(heap: Global, line: &str) -> Result<Request, Fault>
    ensures { Reads written NoRequest line.now result }
{
    let (verb, rest) = word(Piece {
        text: line,
        column: 0,
    })?;
    match verb.text {
        "check" => check(heap, rest),
        "const" => question_at(heap, "const", rest.text, None),
        _ => {
            let (letter, rest) = word(rest)?;
            question_at(heap, verb.text, letter.text, Some(rest))
        }
    }
}
