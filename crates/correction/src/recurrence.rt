//! The shortest recurrence of a sequence, in two buffers.
ghost use Rattle.std.specs.Prelude.{◌≡◌, ◌+◌, ◌<◌, ◌≤◌};
ghost use Rattle.polynomial.specs.Coefficients.{coeff};
ghost use Rattle.locator.specs.Applied.{applied};
ghost use Rattle.locator.specs.Recurrence.{Recurrence};

use crate::syndromes::CHECKS;
use field::Field;
use generator::COEFFICIENTS;
use polynomial::add_multiple;

/// The polynomial applied to a sequence, which is zero where it ends.
fn apply<F: Field>(poly: &[F], sequence: &[F]) -> F
    ensures { result ≡ applied F.ops poly.now (coeff F.ops sequence.now) 0 }
{
    let mut sum = F::zero();
    for (a, t) in poly.iter().zip(sequence) {
        sum = sum.plus(a.times(*t));
    }
    sum
}

/// The shortest recurrence of the first places of a sequence.
#[derive(Drop)]
pub(crate) struct Shortest<F: Field> {
    sequence: [F; CHECKS],
    /// How many places of the sequence count.
    places: usize,
    /// The recurrence.
    pub(crate) poly: [F; COEFFICIENTS],
    pub(crate) degree: usize,
    /// The recurrence from before it last grew, and what that one missed.
    before: [F; COEFFICIENTS],
    miss: F,
    ghost inside: { places ≤ 32 },
    ghost stands: { Recurrence F.ops (coeff F.ops sequence) places poly degree before miss },
}

impl<F: Field> Shortest<F> {
    /// That of no place.
    fn new(sequence: [F; CHECKS]) -> Self
        ensures sequence { result.sequence ≡ sequence }
        ensures places { result.places ≡ 0 }
    {
        let mut poly = [F::zero(); COEFFICIENTS];
        poly[0] = F::one();
        Shortest {
            sequence,
            places: 0,
            poly,
            degree: 0,
            before: [F::zero(); COEFFICIENTS],
            miss: F::one(),
        }
    }

    /// Goes on to that of one place more.
    fn extend(&mut self)
        requires { self.old.places < 32 }
        ensures sequence { self.new.sequence ≡ self.old.sequence }
        ensures places { self.new.places ≡ self.old.places + 1 }
    {
        let at = self.places - self.degree;
        let end = self.places + 1;
        let sequence = &self.sequence[..];
        let missed = apply(&self.poly, &sequence[at..end]);
        self.places = end;
        if missed == F::zero() {
            return;
        }
        let f = missed.times(self.miss.reciprocal().unwrap());
        let before = &self.before[..];
        let older = &before[..at + 1];
        if at < self.degree {
            let up = self.degree - (at + 1);
            add_multiple(&mut self.poly, up, f, older);
            return;
        }
        let poly = self.poly;
        let mut grown = poly;
        grown.rotate_right(at + 1 - self.degree);
        add_multiple(&mut grown, 0, f, older);
        self.poly = grown;
        self.before = poly;
        self.degree = at + 1;
        self.miss = missed;
    }

    /// That of a whole sequence.
    pub(crate) fn of(sequence: [F; CHECKS]) -> Self
        ensures sequence { result.sequence ≡ sequence }
        ensures places { result.places ≡ 32 }
    {
        let mut found = Shortest::new(sequence);
        for _ in 0..CHECKS {
            found.extend();
        }
        found
    }
}
