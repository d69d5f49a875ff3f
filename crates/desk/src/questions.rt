//! The answers to questions about elements of any kind, as text.
ghost use Rattle.std.specs.Prelude.{◌≡◌, List, ◌∷◌, ◌++◌, IfOk, string_bytes, OnOk};
ghost use Rattle.desk.specs.Replies.{or_none, constants_line, operate_line, value_line, root_line, DividedLine, Replied};

use field::{Field, evaluate, first_root};
use polynomial::Polynomial;
use requests::Question;
use spelling::{Spelled, write_list};
use std::alloc::{AllocError, Global};

/// Writes an element behind the text, with a blank between.
fn push_element<F: Spelled>(text: &mut String, x: F) -> Result<(), AllocError>
    ensures { OnOk result (string_bytes text.new ≡ string_bytes text.old ++ (32 ∷ F.written x)) }
{
    text.push(' ')?;
    x.write(text)
}

/// The same for an element that may be missing.
fn push_option<F: Spelled>(text: &mut String, x: Option<F>) -> Result<(), AllocError>
    ensures { OnOk result (string_bytes text.new ≡ string_bytes text.old ++ (32 ∷ or_none F.written x)) }
{
    match x {
        Some(element) => push_element(text, element),
        None => text.push_str(" none"),
    }
}

/// Zero, one and α.
fn constants<F: Field + Spelled>(heap: Global) -> Result<String, AllocError>
    ensures { IfOk result (λ s. string_bytes s ≡ constants_line F.Field.ops F.Spelled.written) }
{
    let mut text = String::from_str(heap, "const =")?;
    push_element(&mut text, F::zero())?;
    push_element(&mut text, F::one())?;
    push_element(&mut text, F::alpha())?;
    Ok(text)
}

/// Sum, product, reciprocal of the first, and whether the two are the same.
fn operate<F: Field + Spelled>(heap: Global, a: F, b: F) -> Result<String, AllocError>
    ensures { IfOk result (λ s. string_bytes s ≡ operate_line F.Field.ops F.Spelled.written a b) }
{
    let mut text = String::from_str(heap, "op =")?;
    push_element(&mut text, a.plus(b))?;
    push_element(&mut text, a.times(b))?;
    push_option(&mut text, a.reciprocal())?;
    text.push_str(if a == b { " 1" } else { " 0" })?;
    Ok(text)
}

/// The value of a polynomial.
fn value<F: Field + Spelled>(heap: Global, coefficients: &[F], x: F) -> Result<String, AllocError>
    ensures { IfOk result (λ s. string_bytes s ≡ value_line F.Field.ops F.Spelled.written coefficients.now x) }
{
    let mut text = String::from_str(heap, "eval =")?;
    push_element(&mut text, evaluate(coefficients, x))?;
    Ok(text)
}

/// The first root from a given exponent on.
fn root<F: Field + Spelled>(
    heap: Global,
    coefficients: &[F],
    from: usize,
) -> Result<String, AllocError>
    ensures { IfOk result (λ s. string_bytes s ≡ root_line F.Field.ops F.Spelled.written coefficients.now from) }
{
    match first_root(coefficients, from) {
        Some(n) => format!(in heap; "root = {n}"),
        None => String::from_str(heap, "root = none"),
    }
}

/// What division leaves in the buffer.
fn remainder<F: Field + Spelled>(
    heap: Global,
    buffer: &mut [F],
    by: &[F],
) -> Result<String, AllocError>
    ensures { IfOk result (λ s. DividedLine F.Field.ops F.Spelled.written buffer.old by.now (string_bytes s)) }
{
    let mut polynomial = Polynomial::new(buffer);
    match polynomial.divide(by) {
        None => String::from_str(heap, "div = none"),
        Some(()) => {
            let mut text = String::from_str(heap, "div = ")?;
            write_list(&mut text, buffer)?;
            Ok(text)
        }
    }
}

/// The line that answers a question, without its line feed.
pub fn answer_question<F: Field + Spelled>(
    heap: Global,
    question: Question<F>,
) -> Result<String, AllocError>
    ensures { IfOk result (λ s. Replied F.Field.ops F.Spelled.written question (string_bytes s)) }
{
    match question {
        Question::Constants => constants::<F>(heap),
        Question::Operate { a, b } => operate(heap, a, b),
        Question::Evaluate { coefficients, x } => value(heap, &coefficients, x),
        Question::Divide { mut buffer, by } => remainder(heap, &mut buffer, &by),
        Question::Root { coefficients, from } => root(heap, &coefficients, from),
    }
}
