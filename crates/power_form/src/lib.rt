//! The power form of field elements: a byte whose bits are the coefficients of the powers of α.
#![tactic(auto)]

mod element;
mod tables;

ghost use Rattle.std.specs.Prelude.{◌≡◌, ◌==◌, refl};
ghost use Rattle.field.specs.Field.{alpha_power};
ghost use Rattle.power_form.specs.Arithmetic.{product};
ghost use Rattle.power_form.specs.PowerForm.{element as element_of, power_ops, exponent_if};
ghost use Rattle.power_form.specs.PowerLaws.{power_laws};

pub use element::Power;
use field::Field;
use tables::{exponent_at, power_at};

/// The byte of a product: the exponents of the factors are added.
#[tactic(auto, using(crate::specs::ByteLaws::product_exponents, crate::specs::ByteLaws::product_zero))]
fn product_byte(a: u8, b: u8) -> u8
    ensures { result ≡ product a b }
{
    if a == 0 || b == 0 {
        return 0;
    }
    let n = (exponent_at(a) as u16 + exponent_at(b) as u16) % 255;
    power_at(n as u8)
}

/// α to the power n.
#[tactic(auto, using(crate::specs::PowerLaws::power_element))]
pub fn alpha_to(n: u8) -> Power
    ensures { result ≡ alpha_power power_ops n }
{
    Power::new(power_at(n % 255))
}

impl Power {
    /// The element with these coefficients.
    pub fn new(bits: u8) -> Power
        ensures { result ≡ element_of bits }
    {
        Power { bits }
    }

    /// The n below 255 for which this is α^n; none of zero.
    pub fn exponent(self) -> Option<u8>
        ensures { result ≡ exponent_if (self.bits == 0) self.bits }
    {
        (self.bits != 0).then(|| exponent_at(self.bits))
    }
}

impl Field for Power {
    ghost ops = { power_ops };

    ghost laws = { power_laws };

    ghost equal = { λ x y. refl };

    fn order() -> u8 {
        255
    }

    fn zero() -> Power {
        Power::new(0)
    }

    fn one() -> Power {
        Power::new(1)
    }

    fn alpha() -> Power {
        Power::new(2)
    }

    fn plus(self, other: Power) -> Power {
        Power::new(self.bits ^ other.bits)
    }

    fn times(self, other: Power) -> Power {
        Power::new(product_byte(self.bits, other.bits))
    }

    #[tactic(auto, using(crate::specs::PowerLaws::inverse_power))]
    fn reciprocal(self) -> Option<Power> {
        self.exponent().map(|n| alpha_to(255 - n))
    }
}
