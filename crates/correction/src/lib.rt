//! Correction of one codeword of the (255,223) code, in any kind of field element: the codeword that differs from a word in at most 16
//! symbols, or the news that there is none.
#![tactic(auto)]

mod recurrence;
mod repair;
mod syndromes;

ghost use Rattle.std.specs.Prelude.{◌≡◌};
ghost use Rattle.code.specs.Code.{telemetry};
ghost use Rattle.generator.specs.Claims.{Leaves};
ghost use Rattle.correction.specs.Correcting.{Corrected, Tried, OneCodeword};

use code::SYMBOLS;
use field::Field;
use generator::generator;
use polynomial::divide;
use recurrence::Shortest;
use repair::{Locator, remove_errors};
pub use syndromes::is_zero;
use syndromes::{CHECKS, Gamma, syndromes_of};

/// The most symbols that are corrected: half the number of checks.
const LIMIT: usize = CHECKS / 2;

/// There is no codeword within the limit.
#[derive(Clone, Copy, Debug, PartialEq, Eq)]
pub struct NoCodeword;

/// At most one codeword is within the limit of a word: a theorem, with nothing to compute.
pub fn one_codeword_stands<F: Field>()
    ensures { OneCodeword F.ops }
{}

/// Corrects a word that leaves this remainder. None, with the word in any state, where no codeword is within the limit.
fn try_correct<F: Field>(word: &mut [F; SYMBOLS], remainder: &[F; CHECKS]) -> Option<usize>
    ensures { F.ops.order ≡ telemetry.symbols → Leaves F.ops telemetry word.old remainder.now → Tried F.ops telemetry word.old word.new result }
{
    let gamma = Gamma::new();
    let syndromes = syndromes_of(&gamma, remainder);
    let locator = Locator::new(Shortest::of(syndromes))?;
    remove_errors(word, locator, syndromes, gamma)
}

// The order of α stands as a premise in each of these contracts: the trait leaves it open, and a bound or a law would ask of every caller what
// only this crate needs.

/// Leaves in place of a word, C_0 first, that leaves this remainder by the generator the codeword that differs from it in at most 16 symbols, and
/// answers in how many. Refuses, with the word as it was, where there is no such codeword.
pub fn correct<F: Field>(
    word: &mut [F; SYMBOLS],
    remainder: &[F; CHECKS],
) -> Result<usize, NoCodeword>
    ensures { F.ops.order ≡ telemetry.symbols → Leaves F.ops telemetry word.old remainder.now → Corrected F.ops telemetry word.old word.new result }
{
    if is_zero(remainder) {
        return Ok(0);
    }
    let mut work = *word;
    let errors = try_correct(&mut work, remainder).ok_or(NoCodeword)?;
    *word = work;
    Ok(errors)
}

/// Leaves in place of a word, C_0 first, the codeword that differs from it in at most 16 symbols, and answers in how many. Refuses, with the word as
/// it was, where there is no such codeword.
pub fn correct_word<F: Field>(word: &mut [F; SYMBOLS]) -> Result<usize, NoCodeword>
    ensures { F.ops.order ≡ telemetry.symbols → Corrected F.ops telemetry word.old word.new result }
{
    let mut work = *word;
    divide(&mut work, &generator()).unwrap();
    correct(word, work.first_chunk().unwrap())
}
