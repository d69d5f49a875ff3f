//! A polynomial whose coefficients stand in a slice that is lent to it.
ghost use Rattle.std.specs.Prelude.{◌≡◌};
ghost use Rattle.field.specs.Polynomial.{value, first_root as first_root_of};
ghost use Rattle.polynomial.specs.Division.{Divided};

use field::Field;

/// The polynomial with the coefficients in a lent slice, lowest power first.
#[derive(Drop)]
pub struct Polynomial<'a, F> {
    coefficients: &'a mut [F],
}

// A form that the project fixes: a struct over the lent slice, whose methods pass the slice on to functions.
impl<'a, F: Field> Polynomial<'a, F> {
    /// The polynomial with these coefficients.
    pub fn new(coefficients: &'a mut [F]) -> Self
        ensures held { result.coefficients.now ≡ coefficients.old }
        ensures lent { result.coefficients.ghost_name ≡ coefficients.entry.ghost_name }
    {
        Polynomial { coefficients }
    }

    /// The value at x.
    pub fn evaluate(&self, x: F) -> F
        ensures { result ≡ value F.ops self.now.coefficients.now x }
    {
        field::evaluate(self.coefficients, x)
    }

    /// The first n, from a given one on and below α's order, for which α^n is a root.
    pub fn first_root(&self, from: usize) -> Option<usize>
        ensures { result ≡ first_root_of F.ops self.now.coefficients.now from }
    {
        field::first_root(self.coefficients, from)
    }

    /// Leaves the remainder of the division by `by` in the slice. None, with the slice as it was, where `by` is zero.
    pub fn divide(&mut self, by: &[F]) -> Option<()>
        ensures left { Divided F.ops self.old.coefficients.now by.now self.new.coefficients.now result }
        ensures lent { self.new.coefficients.ghost_name ≡ self.old.coefficients.ghost_name }
    {
        crate::divide(self.coefficients, by)
    }
}
