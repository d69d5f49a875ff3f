//! The (255,223) code: the powers of γ, and what holds of its codewords in every kind of field element.
#![tactic(auto)]

ghost use Rattle.std.specs.Prelude.{◌≡◌};
ghost use Rattle.field.specs.Field.{alpha_power};
ghost use Rattle.code.specs.Claims.{Codewords};
ghost use Rattle.code.specs.Code.{telemetry, gamma_power};

use field::{Field, power};

/// The number of symbols of a codeword.
pub const SYMBOLS: usize = 255;

/// γ is α to this power.
const GAMMA: u8 = 11;

/// The roots are γ to the powers from this one on, as many as there are check symbols.
pub const FIRST_ROOT: u8 = 112;

/// The number of check symbols.
pub const CHECKS: u8 = 32;

/// γ.
pub fn gamma<F: Field>() -> F
    ensures { result ≡ alpha_power F.ops telemetry.step }
{
    power(F::alpha(), GAMMA)
}

/// γ to the power j.
pub fn gamma_to<F: Field>(j: u8) -> F
    ensures { result ≡ gamma_power F.ops telemetry j }
{
    power(gamma(), j)
}

/// Equal symbols are a codeword, and so is the sum of two codewords: a theorem, with nothing to compute.
pub fn codewords_stand<F: Field>()
    ensures { Codewords F.ops }
{}
