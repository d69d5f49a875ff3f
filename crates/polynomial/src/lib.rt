//! Polynomials over any kind of field element, as lists of coefficients, lowest power first: their degree, multiples of one added to
//! another, their division in place, and the theorems on them that hold in every field of the trait.
#![tactic(auto)]

mod buffer;
mod division;

ghost use Rattle.polynomial.specs.Laws.{Coefficients, OneRemainder, LinearRemainder, FewRoots, PowerSums, Distance};

pub use buffer::Polynomial;
pub use division::{add_multiple, degree, divide};
use field::Field;

/// Sums, multiples, products and shifts have the coefficients that they should.
pub fn coefficients_stand<F: Field>()
    ensures { Coefficients F.ops }
{}

/// Every polynomial has one remainder by another that is not zero, and one only.
pub fn one_remainder_stands<F: Field>()
    ensures { OneRemainder F.ops }
{}

/// The remainder of a sum is the sum of the remainders, and of a multiple the multiple.
pub fn linear_remainder_stands<F: Field>()
    ensures { LinearRemainder F.ops }
{}

/// A polynomial that is zero at as many different elements as it has coefficients is zero.
pub fn few_roots_stand<F: Field>()
    ensures { FewRoots F.ops }
{}

/// Where as many power sums vanish as there are places, whose locators all differ, every value is zero.
pub fn power_sums_stand<F: Field>()
    ensures { PowerSums F.ops }
{}

/// Two words that vanish at c powers in a row and differ in at most c places are the same.
pub fn distance_stands<F: Field>()
    ensures { Distance F.ops }
{}
