//! The question that stands behind a verb and a kind, at any kind of field element.
ghost use Rattle.std.specs.Prelude.{Some, codes};
ghost use Rattle.tokens.specs.Words.{Plain};
ghost use Rattle.requests.specs.Lines.{Poses};

use crate::request::Question;
use spelling::{Spelled, read_list};
use std::alloc::Global;
use tokens::{Fault, Piece, count, word};

/// `op K a b`, behind the kind.
fn operate<F: Spelled>(piece: Piece<'_>) -> Result<Question<F>, Fault>
    ensures { Poses F.written (codes "op") (Some piece.entry) result }
{
    let (a, b) = word(piece)?;
    let a = F::read(a)?;
    let b = F::read(b)?;
    Ok(Question::Operate { a, b })
}

/// `eval K poly x`, behind the kind.
fn evaluate<F: Spelled>(heap: Global, piece: Piece<'_>) -> Result<Question<F>, Fault>
    ensures { Poses F.written (codes "eval") (Some piece.entry) result }
{
    let (list, x) = word(piece)?;
    let coefficients = read_list(heap, list)?;
    let x = F::read(x)?;
    Ok(Question::Evaluate { coefficients, x })
}

/// `div K buffer by`, behind the kind.
fn divide<F: Spelled>(heap: Global, piece: Piece<'_>) -> Result<Question<F>, Fault>
    ensures { Poses F.written (codes "div") (Some piece.entry) result }
{
    let (buffer, by) = word(piece)?;
    let buffer = read_list(heap, buffer)?;
    let by = read_list(heap, by)?;
    Ok(Question::Divide { buffer, by })
}

/// `root K poly n`, behind the kind.
fn root<F: Spelled>(heap: Global, piece: Piece<'_>) -> Result<Question<F>, Fault>
    ensures { Poses F.written (codes "root") (Some piece.entry) result }
{
    let (list, n) = word(piece)?;
    let coefficients = read_list(heap, list)?;
    let from = count(n)?;
    Ok(Question::Root { coefficients, from })
}

/// The question of a verb, from what follows the kind, if anything does.
pub(crate) fn question<F: Spelled>(
    heap: Global,
    verb: &str,
    rest: Option<Piece<'_>>,
) -> Result<Question<F>, Fault>
    requires { Plain verb.now }
    ensures { Poses F.written verb.now rest.entry result }
{
    let Some(piece) = rest else {
        return match verb {
            "const" => Ok(Question::Constants),
            _ => Err(Fault::Shape),
        };
    };
    match verb {
        "op" => operate(piece),
        "eval" => evaluate(heap, piece),
        "div" => divide(heap, piece),
        "root" => root(heap, piece),
        _ => Err(Fault::Shape),
    }
}
