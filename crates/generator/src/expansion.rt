//! The factors x + γ^j, multiplied out in place.
ghost use Rattle.std.specs.Prelude.{◌≡◌};
ghost use Rattle.code.specs.Code.{telemetry};
ghost use Rattle.generator.specs.Generator.{generator as generator_of, Multiplied};

use code::{CHECKS, FIRST_ROOT, gamma_to};
use field::Field;

/// The generator has a coefficient for each power up to the number of checks.
pub const COEFFICIENTS: usize = CHECKS as usize + 1;

/// Multiplies the polynomial by x + root; a power for which there is no room is lost.
fn multiply<F: Field>(coefficients: &mut [F], root: F)
    ensures { Multiplied F.ops root coefficients.old coefficients.new }
{
    let mut below = F::zero();
    for coefficient in coefficients.iter_mut() {
        let here = *coefficient;
        *coefficient = below.plus(root.times(here));
        below = here;
    }
}

/// The coefficients of the generator, lowest power first.
pub fn generator<F: Field>() -> [F; COEFFICIENTS]
    ensures { result ≡ generator_of F.ops telemetry }
{
    let mut coefficients = [F::zero(); COEFFICIENTS];
    coefficients[0] = F::one();
    for k in 0..CHECKS {
        multiply(&mut coefficients, gamma_to(FIRST_ROOT + k));
    }
    coefficients
}
