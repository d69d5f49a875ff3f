//! The generator in exponent form: the exponents of its coefficients, and their text.
ghost use Rattle.std.specs.Prelude.{◌≡◌, map, IfOk, Some, string_bytes};
ghost use Rattle.generator.specs.Forms.{number as number_of};
ghost use Rattle.generator.specs.Generator.{exponents as listed_exponents};
ghost use Rattle.generator.specs.Text.{shown, line as line_of};

use crate::expansion::{COEFFICIENTS, generator};
use exponent_form::Logarithm;
use std::alloc::{AllocError, Global};

/// The exponent of an element; none of zero.
fn exponent_of(element: Logarithm) -> Option<u8>
    ensures { result ≡ number_of element }
{
    match element {
        Logarithm::Star => None,
        Logarithm::Of(exponent) => Some(exponent.number),
    }
}

/// The exponents of the generator's coefficients, lowest power first: each coefficient is a power of α.
pub fn coefficient_exponents() -> [Option<u8>; COEFFICIENTS]
    ensures { result ≡ map Some listed_exponents }
{
    generator().map(exponent_of)
}

/// The text of an exponent; a star where there is none.
fn word(heap: Global, exponent: Option<u8>) -> Result<String, AllocError>
    ensures { IfOk result (λ s. string_bytes s ≡ shown exponent) }
{
    match exponent {
        None => format!(in heap; "*"),
        Some(number) => format!(in heap; "{number}"),
    }
}

/// The exponents in one line, with one blank between them and a line feed last.
fn line(heap: Global, exponents: &[Option<u8>]) -> Result<String, AllocError>
    ensures { IfOk result (λ s. string_bytes s ≡ line_of exponents.now) }
{
    let [first, rest @ ..] = exponents else {
        return format!(in heap; "\n");
    };
    let mut text = word(heap, *first)?;
    for exponent in rest {
        let next = word(heap, *exponent)?;
        text = format!(in heap; "{text} {next}")?;
    }
    format!(in heap; "{text}\n")
}

/// The exponents of the generator's coefficients in one line, that of the lowest power first.
pub fn coefficients_line(heap: Global) -> Result<String, AllocError>
    ensures { IfOk result (λ s. string_bytes s ≡ line_of (map Some listed_exponents)) }
{
    line(heap, &coefficient_exponents())
}
