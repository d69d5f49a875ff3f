//! Field elements as text, in each of the three kinds.
ghost use Rattle.std.specs.Prelude.{◌≡◌, ℕ, ◌<◌, List, ◌++◌, string_bytes, decimal, MatchResult, OnOk, ◌≢◌};
ghost use Rattle.spelling.specs.Kinds.{power_text, dual_text, logarithm_text};
ghost use Rattle.std.proofs.Common.{rules, arith};
ghost use Rattle.exponent_form.specs.declared.element.Logarithm.TheVariants.{Star, Of};
ghost use Rattle.spelling.specs.Singles.{single_decimal};

use crate::spelled::Spelled;
use dual_form::Dual;
use exponent_form::{Exponent, Logarithm};
use power_form::Power;
use std::alloc::AllocError;
use tokens::{Fault, Piece, byte, number, write_byte};

/// The exponent of a decimal number.
#[tactic(auto, using(tokens::proofs::Decimals::no_number))]
fn exponent(piece: Piece<'_>) -> Result<Exponent, Fault>
    ensures { MatchResult result (λ e. piece.entry.text.now ≡ decimal e.number) (λ _. (e : Exponent) → piece.entry.text.now ≢ decimal e.number) }
{
    let n = number(piece, 254)? as u8;
    Exponent::new(n).ok_or(Fault::Number)
}

// Alike for the two kinds of bytes: all that they share, a byte's two digits read and written, is in `tokens` already.
impl Spelled for Power {
    ghost written = { power_text };

    ghost plain = { Prim.search rules };

    fn read(piece: Piece<'_>) -> Result<Power, Fault> {
        Ok(Power::new(byte(piece)?))
    }

    fn write(self, text: &mut String) -> Result<(), AllocError> {
        write_byte(text, self.bits)
    }
}

impl Spelled for Dual {
    ghost written = { dual_text };

    ghost plain = { Prim.search rules };

    fn read(piece: Piece<'_>) -> Result<Dual, Fault> {
        Ok(Dual::new(byte(piece)?))
    }

    fn write(self, text: &mut String) -> Result<(), AllocError> {
        write_byte(text, self.byte)
    }
}

impl Spelled for Logarithm {
    ghost written = { logarithm_text };

    ghost plain = { elim [
      | Star ↦ Prim.search rules
      | Of e ↦ let below = e.below in single_decimal e.number (omega arith)
    ] };

    fn read(piece: Piece<'_>) -> Result<Logarithm, Fault> {
        if piece.text == "*" {
            return Ok(Logarithm::Star);
        }
        Ok(Logarithm::Of(exponent(piece)?))
    }

    fn write(self, text: &mut String) -> Result<(), AllocError> {
        match self {
            Logarithm::Star => text.push('*'),
            Logarithm::Of(e) => write!(text, "{}", e.number),
        }
    }
}
