//! What is built for a text.
use bank::{Holder, Pair};
use rack::{Choice, Rack};

/// One rack, or two side by side.
pub type Assembly = Choice<Rack, Pair<Rack, Rack>>;

/// A bank with a copy beside it, and whether the text asked for a copy.
// An enum of a bank alone and a bank with a copy is no plainer: each call on a holder would stand a second time, for a bank alone.
#[derive(Drop)]
pub struct Built {
    pub bank: Holder<Assembly>,
    pub holds: bool,
}
