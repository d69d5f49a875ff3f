//! The search for the roots of a locator polynomial over all places, and the errors taken off there.
ghost use Rattle.std.specs.Prelude.{◌≡◌, ℕ, ◌+◌, ◌<◌, ◌≤◌, length, take, IfSome, IfNone};
ghost use Rattle.field.specs.Field.{power as power_of};
ghost use Rattle.field.specs.Polynomial.{value};
ghost use Rattle.polynomial.specs.Coefficients.{coeff};
ghost use Rattle.code.specs.Code.{telemetry};
ghost use Rattle.locator.specs.Correction.{locator as locator_of};
ghost use Rattle.correction.specs.Correcting.{DividedBy, Error, AddedPowers, Told, Removed};

use crate::LIMIT;
use crate::recurrence::Shortest;
use crate::syndromes::{CHECKS, Gamma, is_zero, powers};
use code::SYMBOLS;
use field::Field;
use generator::COEFFICIENTS;

/// A quotient's value, and itself applied to a sequence.
#[derive(Clone, Copy)]
struct Quotient<F> {
    value: F,
    applied: F,
}

/// A locator polynomial of at most as many errors as are corrected.
#[derive(Drop)]
pub(crate) struct Locator<F: Field> {
    coefficients: [F; COEFFICIENTS],
    degree: usize,
    ghost few: { degree + degree ≤ telemetry.checks },
    ghost above: { (i : ℕ) → degree < i → coeff F.ops coefficients i ≡ F.ops.nought },
}

impl<F: Field> Locator<F> {
    /// The locator polynomial that a recurrence is. None of more errors than can be corrected.
    pub(crate) fn new(found: Shortest<F>) -> Option<Self>
        ensures kept { IfSome result (λ l. (l.coefficients ≡ found.poly) × (l.degree ≡ found.degree)) }
        ensures refused { IfNone result (telemetry.checks < found.degree + found.degree) }
    {
        if found.degree > LIMIT {
            return None;
        }
        Some(Locator {
            coefficients: found.poly,
            degree: found.degree,
        })
    }

    /// Divides by x + r, for the quotient's value at r and the quotient applied to the syndromes.
    fn divide_by(&self, r: F, syndromes: &[F; CHECKS]) -> Quotient<F>
        ensures { DividedBy F.ops self.now.coefficients r (coeff F.ops syndromes.now) result.value result.applied }
    {
        let mut coefficient = F::zero();
        let mut value = F::zero();
        let mut applied = F::zero();
        // Two parts zipped and turned round read no plainer: both are to be cut at the degree first, and one at its other end too.
        for i in (0..self.degree).rev() {
            coefficient = self.coefficients[i + 1].plus(r.times(coefficient));
            value = coefficient.plus(r.times(value));
            applied = coefficient.times(syndromes[i]).plus(applied);
        }
        Quotient { value, applied }
    }

    /// The error at a root r; none at a double root.
    fn error_at(&self, r: F, scale: F, syndromes: &[F; CHECKS]) -> Option<F>
        ensures { Error F.ops self.now.coefficients r scale (coeff F.ops syndromes.now) result }
    {
        let quotient = self.divide_by(r, syndromes);
        let reciprocal = quotient.value.times(scale).reciprocal()?;
        Some(quotient.applied.times(reciprocal))
    }
}

/// The sum of as many terms as there are steps; each of them is multiplied by its step.
fn next_sum<F: Field>(terms: &mut [F; COEFFICIENTS], steps: &[F]) -> F
    requires { length steps.now ≤ 33 }
    ensures sum { result ≡ value F.ops (take (length steps.now) terms.old) F.ops.unit }
    ensures terms { (j : ℕ) → j < length steps.now → coeff F.ops terms.new j ≡ F.ops.product (coeff F.ops steps.now j) (coeff F.ops terms.old j) }
    ensures rest { (j : ℕ) → length steps.now ≤ j → coeff F.ops terms.new j ≡ coeff F.ops terms.old j }
{
    let mut sum = F::zero();
    // By `terms.iter_mut().zip(steps)`, nothing would be known of the terms afterwards.
    for (j, step) in steps.iter().enumerate() {
        let term = terms[j];
        sum = sum.plus(term);
        terms[j] = step.times(term);
    }
    sum
}

/// Adds y·x^k to each syndrome k.
fn add_powers<F: Field>(syndromes: &mut [F; CHECKS], y: F, x: F)
    ensures { AddedPowers F.ops y x syndromes.old syndromes.new }
{
    let mut term = y;
    for syndrome in syndromes.iter_mut() {
        *syndrome = syndrome.plus(term);
        term = x.times(term);
    }
}

/// The search over the places for the roots of a locator polynomial, as it stands before a place.
#[derive(Drop)]
struct Search<F: Field> {
    locator: Locator<F>,
    syndromes: [F; CHECKS],
    gamma: Gamma<F>,
    /// The powers of γ.
    steps: [F; COEFFICIENTS],
    place: usize,
    /// The locator x of the place, x to the exponent of the first root, and the terms of the polynomial's value at x.
    x: F,
    scale: F,
    terms: [F; COEFFICIENTS],
    /// The syndromes of the word with the errors at the places before taken off.
    left: [F; CHECKS],
    ghost steps_are: { (j : ℕ) → j < 33 → coeff F.ops steps j ≡ power_of F.ops gamma.base j },
    ghost x_is: { x ≡ locator_of F.ops telemetry place },
    ghost scale_is: { scale ≡ power_of F.ops (locator_of F.ops telemetry place) telemetry.first },
    ghost terms_are: { (j : ℕ) → coeff F.ops terms j ≡ F.ops.product (coeff F.ops locator.coefficients j) (power_of F.ops x j) },
}

impl<F: Field> Search<F> {
    /// Before the first place.
    fn new(locator: Locator<F>, syndromes: [F; CHECKS], gamma: Gamma<F>) -> Self
        ensures locator { result.locator ≡ locator }
        ensures syndromes { result.syndromes ≡ syndromes }
        ensures place { result.place ≡ 0 }
        ensures left { result.left ≡ syndromes }
    {
        Search {
            terms: locator.coefficients,
            locator,
            syndromes,
            steps: powers(F::one(), gamma.base),
            gamma,
            place: 0,
            x: F::one(),
            scale: F::one(),
            left: syndromes,
        }
    }

    /// The polynomial's value at the locator of the place, and on to the next place.
    fn next_value(&mut self) -> F
        requires { self.old.place < 255 }
        ensures value { result ≡ value F.ops self.old.locator.coefficients (locator_of F.ops telemetry self.old.place) }
        ensures locator { self.new.locator ≡ self.old.locator }
        ensures syndromes { self.new.syndromes ≡ self.old.syndromes }
        ensures place { self.new.place ≡ self.old.place + 1 }
        ensures left { self.new.left ≡ self.old.left }
    {
        let count = self.locator.degree + 1;
        let steps = &self.steps[..];
        let value = next_sum(&mut self.terms, &steps[..count]);
        self.x = self.gamma.base.times(self.x);
        self.scale = self.gamma.lead.times(self.scale);
        self.place += 1;
        value
    }

    /// The error at the place, which is taken off the running syndromes, and on to the next place. None at a double root.
    fn next_error(&mut self) -> Option<F>
        requires { self.old.place < 255 }
        ensures locator { self.new.locator ≡ self.old.locator }
        ensures syndromes { self.new.syndromes ≡ self.old.syndromes }
        ensures place { self.new.place ≡ self.old.place + 1 }
        ensures told { Told F.ops telemetry self.old.locator.coefficients (coeff F.ops self.old.syndromes) self.old.place self.old.left self.new.left result }
    {
        let x = self.x;
        let scale = self.scale;
        if self.next_value() != F::zero() {
            return Some(F::zero());
        }
        let error = self.locator.error_at(x, scale, &self.syndromes)?;
        add_powers(&mut self.left, error.times(scale), x);
        Some(error)
    }
}

/// Takes the errors off a word that a locator polynomial and the syndromes tell; answers their number. None where what is left is no codeword.
pub(crate) fn remove_errors<F: Field>(
    word: &mut [F; SYMBOLS],
    locator: Locator<F>,
    syndromes: [F; CHECKS],
    gamma: Gamma<F>,
) -> Option<usize>
    ensures { Removed F.ops telemetry locator.coefficients locator.degree (coeff F.ops syndromes) word.old word.new result }
{
    let mut search = Search::new(locator, syndromes, gamma);
    for symbol in word.iter_mut() {
        *symbol = symbol.plus(search.next_error()?);
    }
    is_zero(&search.left).then_some(search.locator.degree)
}
