//! Banks of one lane.
ghost use Rattle.std.specs.Prelude.{◌≡◌, length};
ghost use Rattle.std.proofs.Common.{rules};
ghost use Rattle.rack.specs.Choices.{choice_single};

use crate::choice::Choice;
use bank::Bank;
use dividers::{Divider, Form};

/// A bank of one lane.
pub trait Single: Bank {
    ghost single: { (s : Self) → length (Self.Bank.lanes s) ≡ 1 };
}

impl<F: Form> Single for Divider<F> {
    ghost single = { Prim.search rules };
}

impl<A: Single, B: Single> Single for Choice<A, B> {
    ghost single = { choice_single A.Bank.lanes B.Bank.lanes A.Single.single B.Single.single };
}
