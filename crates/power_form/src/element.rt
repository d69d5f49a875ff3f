//! A field element in power form.
ghost use Rattle.std.specs.Prelude.{◌<◌};

/// Bit i of `bits`, bit 0 the least, is the coefficient of α^i.
#[derive(Clone, Copy, Debug, PartialEq, Eq)]
pub struct Power {
    pub bits: u8,
    ghost byte: { bits < 256 },
}
