//! Kinds of field element, and what is computed from their laws alone: powers, values of polynomials and their first roots.
#![tactic(auto)]

ghost use Rattle.std.specs.Prelude.{◌≡◌};
ghost use Rattle.field.specs.Field.{Ops, Laws, power as power_of};
ghost use Rattle.field.specs.Polynomial.{value, first_root as first_root_of};

/// A way to write the elements of a field. Its operations keep the laws of a field in which every element but zero is a power of α,
/// and `==` is the field's test of sameness.
pub trait Field: Copy + PartialEq {
    ghost ops: { Ops Self };

    /// How many different powers α has: the first that is one again.
    fn order() -> u8
        ensures { result ≡ ops.order };

    fn zero() -> Self
        ensures { result ≡ ops.nought };

    fn one() -> Self
        ensures { result ≡ ops.unit };

    fn alpha() -> Self
        ensures { result ≡ ops.alpha };

    fn plus(self, other: Self) -> Self
        ensures { result ≡ ops.sum self other };

    fn times(self, other: Self) -> Self
        ensures { result ≡ ops.product self other };

    /// None of zero.
    fn reciprocal(self) -> Option<Self>
        ensures { result ≡ ops.reciprocal self };

    ghost laws: { Laws ops };

    ghost equal: { (x y : Self) → Self.eq x y ≡ ops.same x y };
}

/// `base` to the power `exponent`.
#[tactic(auto, using(crate::proofs::Horner::power_next), unfolding(crate::specs::Field::power))]
pub fn power<F: Field>(base: F, exponent: u8) -> F
    ensures { result ≡ power_of F.ops base exponent }
{
    let mut x = F::one();
    for _i in 0..exponent {
        x = base.times(x);
    }
    x
}

/// The value at x of the polynomial with these coefficients, lowest power first.
#[tactic(auto, using(crate::proofs::Horner::horner_last, crate::proofs::Horner::horner_none))]
pub fn evaluate<F: Field>(coefficients: &[F], x: F) -> F
    ensures { result ≡ value F.ops coefficients.now x }
{
    let mut sum = F::zero();
    for coefficient in coefficients.iter().rev() {
        sum = coefficient.plus(x.times(sum));
    }
    sum
}

/// Whether the polynomial is zero at x.
pub fn is_root<F: Field>(coefficients: &[F], x: F) -> bool
    ensures { result ≡ F.ops.same (value F.ops coefficients.now x) F.ops.nought }
{
    evaluate(coefficients, x) == F::zero()
}

/// The first n, from a given one on and below α's order, for which α^n is a root of the polynomial.
#[tactic(auto, using(crate::proofs::Roots::root_steps))]
pub fn first_root<F: Field>(coefficients: &[F], from: usize) -> Option<usize>
    ensures { result ≡ first_root_of F.ops coefficients.now from }
{
    let order = F::order();
    let start = u8::try_from(from).ok().filter(|n| *n < order)?;
    let mut x = power(F::alpha(), start);
    // A `find` would have to keep x in its closure, and what a closure that changes gives is not known to the proof.
    for n in start..order {
        if is_root(coefficients, x) {
            return Some(usize::from(n));
        }
        x = F::alpha().times(x);
    }
    None
}
