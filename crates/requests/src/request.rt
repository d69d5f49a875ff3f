//! The requests that a line can be.

/// What is asked about elements of one kind of field element.
#[derive(Drop)]
pub enum Question<F> {
    /// Zero, one and α.
    Constants,
    /// Sum, product, reciprocal of the first, and whether they are the same.
    Operate { a: F, b: F },
    /// The value of a polynomial, lowest power first, at x.
    Evaluate { coefficients: Vec<F>, x: F },
    /// What division leaves in the buffer.
    Divide { buffer: Vec<F>, by: Vec<F> },
    /// The first root α^n from a given n on.
    Root { coefficients: Vec<F>, from: usize },
}
