//! The dual form of field elements: the form of the symbols in blocks and packets.
#![tactic(auto)]

mod element;
mod tables;

ghost use Rattle.std.specs.Prelude.{◌≡◌, ◌%◌, ◌<◌};
ghost use Rattle.std.specs.Int.Count.{ones};
ghost use Rattle.dual_form.specs.Dual.{trace as trace_of};
ghost use Rattle.dual_form.specs.DualBasis.{DualBasis};
ghost use Rattle.dual_form.specs.DualForm.{symbol, power_of_dual, dual_of_power, dual_ops};
ghost use Rattle.dual_form.specs.DualLaws.{dual_laws, dual_same};

pub use element::Dual;
use field::Field;
use power_form::Power;
use tables::{dual_byte, power_byte};

/// 1 where the byte has an odd number of bits 1, otherwise 0.
pub fn parity(byte: u8) -> u8
    ensures value { result ≡ ones byte % 2 }
    ensures bit { result < 2 }
{
    (byte.count_ones() % 2) as u8
}

impl Dual {
    /// The element with this byte.
    pub fn new(byte: u8) -> Dual
        ensures { result ≡ symbol byte }
    {
        Dual { byte }
    }
}

/// The same element in dual form.
impl From<Power> for Dual {
    ghost from_gives = { λ element result. result ≡ dual_of_power element };

    fn from(element: Power) -> Dual {
        Dual::new(dual_byte(element.bits))
    }
}

/// The same element in power form.
impl From<Dual> for Power {
    ghost from_gives = { λ element result. result ≡ power_of_dual element };

    fn from(element: Dual) -> Power {
        Power::new(power_byte(element.byte))
    }
}

// Alike in two forms and no plainer as one: an impl for all that converts would overlap that of power form, and a trait between would say
// each operation again.
impl Field for Dual {
    ghost ops = { dual_ops };

    ghost laws = { dual_laws };

    ghost equal = { dual_same };

    fn order() -> u8 {
        255
    }

    fn zero() -> Dual {
        Dual::from(Power::zero())
    }

    fn one() -> Dual {
        Dual::from(Power::one())
    }

    fn alpha() -> Dual {
        Dual::from(Power::alpha())
    }

    #[tactic(auto, using(crate::specs::DualLaws::symbol_sum))]
    fn plus(self, other: Dual) -> Dual {
        // Bit by bit, since a trace of a sum is the sum of the traces.
        Dual::new(self.byte ^ other.byte)
    }

    fn times(self, other: Dual) -> Dual {
        Dual::from(Power::from(self).times(Power::from(other)))
    }

    fn reciprocal(self) -> Option<Dual> {
        Power::from(self).reciprocal().map(Dual::from)
    }
}

/// The trace of an element, 0 or 1.
#[tactic(auto, using(crate::specs::Bytes::trace_parity))]
pub fn trace(element: Power) -> u8
    ensures { result ≡ trace_of element.bits }
{
    parity(element.bits & 0xfe)
}

/// That the dual form is the traces and that the dual basis undoes it: a theorem, with nothing to compute.
#[tactic(auto, using(crate::specs::DualLaws::dual_basis))]
pub fn dual_basis_stands()
    ensures { DualBasis }
{}
