//! A field element in dual form.
ghost use Rattle.std.specs.Prelude.{◌<◌};

/// The bits z0 z1 .. z7 of `byte`, z0 the most significant: zi is the trace of β^i times the element.
#[derive(Clone, Copy, Debug, PartialEq, Eq)]
pub struct Dual {
    pub byte: u8,
    ghost small: { byte < 256 },
}
