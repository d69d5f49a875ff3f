//! A field element in exponent form.
ghost use Rattle.std.specs.Prelude.{◌<◌};

/// The exponent n of α^n, from 0 to 254.
#[derive(Clone, Copy, Debug, PartialEq, Eq)]
pub struct Exponent {
    pub number: u8,
    ghost below: { number < 255 },
}

/// Zero, written as a star, or a power of α.
// Of the shape of an option, which cannot be a kind of field element itself; a struct around one would be no plainer.
#[derive(Clone, Copy, Debug, PartialEq, Eq)]
pub enum Logarithm {
    Star,
    Of(Exponent),
}
