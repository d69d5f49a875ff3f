//! The generator of the (255,223) code: its coefficients computed from its roots in any kind of field element, and what it is to the
//! codewords.
#![tactic(auto)]

mod expansion;
mod exponents;

ghost use Rattle.generator.specs.Claims.{Generators};
ghost use Rattle.generator.specs.Forms.{ListedForms};

pub use expansion::{COEFFICIENTS, generator};
pub use exponents::{coefficient_exponents, coefficients_line};
use field::Field;

/// The generator divides the codewords and no other words, and codewords lie far apart: a theorem, with nothing to compute.
pub fn generators_stand<F: Field>()
    ensures { Generators F.ops }
{}

/// The coefficients are the listed powers of α in every form: a theorem, with nothing to compute.
#[tactic(auto, using(crate::proofs::Computed::listed_forms))]
pub fn listed_forms_stand()
    ensures { ListedForms }
{}
