//! The registers of a divider over any kind of field element: after any symbols they are a remainder by the generator, and they
//! complete a message to a codeword.
#![tactic(auto)]

ghost use Rattle.divider.specs.Claims.{Divider};

use field::Field;

/// The registers divide by the generator, and a message followed by them is a codeword: a theorem, with nothing to compute.
pub fn divider_stands<F: Field>()
    ensures { Divider F.ops }
{}
