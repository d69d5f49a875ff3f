//! The exponent form of field elements: a star for zero, or the exponent of a power of α.
#![tactic(auto)]

mod element;

ghost use Rattle.std.specs.Prelude.{◌≡◌, refl};
ghost use Rattle.field.specs.Field.{mapped};
ghost use Rattle.dual_form.specs.DualForm.{power_of_dual, dual_of_power};
ghost use Rattle.exponent_form.specs.ExponentForm.{power_of_logarithm, logarithm_of_power, logarithm_ops, in_range, numbered};
ghost use Rattle.exponent_form.specs.ExponentLaws.{logarithm_laws, same_of, star_not_of, of_not_star};
ghost use Rattle.exponent_form.specs.declared.element.Logarithm.TheVariants.{Star, Of};

use dual_form::Dual;
pub use element::{Exponent, Logarithm};
use field::Field;
use power_form::{Power, alpha_to};

impl Exponent {
    /// The exponent with this number; none above 254, since α^255 is α^0.
    pub fn new(number: u8) -> Option<Exponent>
        ensures { mapped (λ e. e.number) result ≡ in_range number }
    {
        // The closure of a `then` would have to be told the test again, since an exponent is below 255.
        if number < 255 {
            Some(Exponent { number })
        } else {
            None
        }
    }

    /// The exponent with this number, counted in whole turns: α^255 is α^0.
    fn counted(number: u16) -> Exponent
        ensures { result ≡ numbered number }
    {
        Exponent {
            number: (number % 255) as u8,
        }
    }
}

/// The same element in exponent form.
impl From<Power> for Logarithm {
    ghost from_gives = { λ element result. result ≡ logarithm_of_power element };

    fn from(element: Power) -> Logarithm {
        match element.exponent() {
            None => Logarithm::Star,
            Some(number) => Logarithm::Of(Exponent::counted(number as u16)),
        }
    }
}

/// The same element in power form.
impl From<Logarithm> for Power {
    ghost from_gives = { λ element result. result ≡ power_of_logarithm element };

    fn from(element: Logarithm) -> Power {
        match element {
            Logarithm::Star => Power::zero(),
            Logarithm::Of(exponent) => alpha_to(exponent.number),
        }
    }
}

/// The element of a dual byte in exponent form.
impl From<Dual> for Logarithm {
    ghost from_gives = { λ element result. result ≡ logarithm_of_power (power_of_dual element) };

    fn from(element: Dual) -> Logarithm {
        Logarithm::from(Power::from(element))
    }
}

/// The same element in dual form.
impl From<Logarithm> for Dual {
    ghost from_gives = { λ element result. result ≡ dual_of_power (power_of_logarithm element) };

    fn from(element: Logarithm) -> Dual {
        Dual::from(Power::from(element))
    }
}

// Alike in two forms and no plainer as one: an impl for all that converts would overlap that of power form, and a trait between would say
// each operation again.
impl Field for Logarithm {
    ghost ops = { logarithm_ops };

    ghost laws = { logarithm_laws };

    ghost equal = { elim [
      | Star ↦ elim [ Star ↦ refl | Of n ↦ star_not_of n ]
      | Of m ↦ elim [ Star ↦ of_not_star m | Of n ↦ same_of m n ]
    ] };

    fn order() -> u8 {
        255
    }

    fn zero() -> Logarithm {
        Logarithm::from(Power::zero())
    }

    fn one() -> Logarithm {
        Logarithm::from(Power::one())
    }

    fn alpha() -> Logarithm {
        Logarithm::from(Power::alpha())
    }

    fn plus(self, other: Logarithm) -> Logarithm {
        Logarithm::from(Power::from(self).plus(Power::from(other)))
    }

    #[tactic(auto, using(crate::specs::ExponentLaws::products))]
    fn times(self, other: Logarithm) -> Logarithm {
        match (self, other) {
            (Logarithm::Of(m), Logarithm::Of(n)) => Logarithm::Of(Exponent::counted(
                m.number as u16 + n.number as u16,
            )),
            _ => Logarithm::Star,
        }
    }

    #[tactic(auto, using(crate::specs::ExponentLaws::numbered_reciprocal))]
    fn reciprocal(self) -> Option<Logarithm> {
        match self {
            Logarithm::Star => None,
            Logarithm::Of(n) => Some(Logarithm::Of(Exponent::counted(255 - n.number as u16))),
        }
    }
}
