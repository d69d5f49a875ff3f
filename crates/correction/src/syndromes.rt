//! The syndromes of a word, from its remainder by the generator: the remainder's values at the roots, all of them side by side.
ghost use Rattle.std.specs.Prelude.{◌≡◌, ℕ, ◌<◌, true, false};
ghost use Rattle.field.specs.Field.{power as power_of, alpha_power};
ghost use Rattle.field.specs.Polynomial.{value};
ghost use Rattle.polynomial.specs.Coefficients.{coeff, Nought};
ghost use Rattle.code.specs.Code.{telemetry, gamma_power};
ghost use Rattle.locator.specs.Correction.{Syndromes};

use code::{FIRST_ROOT, gamma, gamma_to};
use field::Field;
use polynomial::degree;

/// The number of syndromes, one for each check symbol.
pub(crate) const CHECKS: usize = code::CHECKS as usize;

/// γ, and γ to the exponent of the first root.
#[derive(Drop)]
pub(crate) struct Gamma<F: Field> {
    pub(crate) base: F,
    pub(crate) lead: F,
    ghost base_is: { base ≡ alpha_power F.ops telemetry.step },
    ghost lead_is: { lead ≡ gamma_power F.ops telemetry telemetry.first },
}

impl<F: Field> Gamma<F> {
    /// Computes both powers.
    pub(crate) fn new() -> Self {
        Gamma {
            base: gamma(),
            lead: gamma_to(FIRST_ROOT),
        }
    }
}

/// The elements first·base^k, from k = 0 on.
pub(crate) fn powers<F: Field, const N: usize>(first: F, base: F) -> [F; N]
    ensures { (k : ℕ) → k < N → coeff F.ops result k ≡ F.ops.product first (power_of F.ops base k) }
{
    let mut out = [first; N];
    let mut x = first;
    for entry in out.iter_mut() {
        *entry = x;
        x = base.times(x);
    }
    out
}

/// One step of Horner's rule at each point.
fn horner_step<F: Field>(values: &mut [F; CHECKS], points: &[F; CHECKS], coefficient: F)
    ensures { (k : ℕ) → k < 32 → coeff F.ops values.new k ≡ F.ops.sum coefficient (F.ops.product (coeff F.ops points.now k) (coeff F.ops values.old k)) }
{
    // By `zip(points)` in place of the index, nothing would be known of the values afterwards.
    for (k, value) in values.iter_mut().enumerate() {
        *value = coefficient.plus(points[k].times(*value));
    }
}

/// The values of a polynomial at the points.
// `array::from_fn` with `field::evaluate` proves too and is slower, a twentieth of a whole correction: each product waits for the one before.
fn values_at<F: Field>(points: &[F; CHECKS], coefficients: &[F]) -> [F; CHECKS]
    ensures { (k : ℕ) → k < 32 → coeff F.ops result k ≡ value F.ops coefficients.now (coeff F.ops points.now k) }
{
    let mut values = [F::zero(); CHECKS];
    for coefficient in coefficients.iter().rev() {
        horner_step(&mut values, points, *coefficient);
    }
    values
}

/// The syndromes of the words that leave this remainder.
pub(crate) fn syndromes_of<F: Field>(gamma: &Gamma<F>, remainder: &[F; CHECKS]) -> [F; CHECKS]
    ensures { Syndromes F.ops telemetry remainder.now (coeff F.ops result) }
{
    values_at(&powers(gamma.lead, gamma.base), remainder)
}

/// Whether every element is zero.
pub fn is_zero<F: Field>(elements: &[F]) -> bool
    ensures zero { result ≡ true → Nought F.ops elements.now }
    ensures other { result ≡ false → Nought F.ops elements.now → ⊥ }
{
    degree(elements).is_none()
}
