//! Values that have a written form.
ghost use Rattle.std.specs.Prelude.{◌≡◌, ℕ, List, ◌++◌, string_bytes, MatchResult, OnOk, ◌≢◌};
ghost use Rattle.spelling.specs.Lists.{Single};

use std::alloc::AllocError;
use tokens::{Fault, Piece};

// No `Display`: it could be implemented in the elements' own crates alone, away from `read`, with which the written form is shared.
pub trait Spelled: Copy {
    ghost written: { Self → List ℕ };

    /// The value that is written as the text.
    fn read(piece: Piece<'_>) -> Result<Self, Fault>
        ensures { MatchResult result (λ x. piece.entry.text.now ≡ written x) (λ _. (x : Self) → piece.entry.text.now ≢ written x) };

    /// Writes the value behind the text.
    fn write(self, text: &mut String) -> Result<(), AllocError>
        ensures { OnOk result (string_bytes text.new ≡ string_bytes text.old ++ written self) };

    ghost plain: { (x : Self) → Single (written x) };
}
