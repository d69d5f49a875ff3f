//! Decimal numbers as text.
ghost use Rattle.std.specs.Prelude.{◌≡◌, ℕ, ◌-◌, ◌^◌, ◌≤◌, decimal, MatchOption, MatchResult};
ghost use Rattle.tokens.specs.Numbers.{AllDigits, NoNumber, BadNumber};

use crate::fault::Fault;
use crate::piece::Piece;

/// The number of at most `most` that the digits are.
fn value_of(text: &str, most: u64) -> Option<u64>
    requires { AllDigits text.now }
    ensures { MatchOption result (NoNumber most text.now) (λ n. (n ≤ most) × (text.now ≡ decimal n)) }
{
    if text.len() > 1 && text.starts_with('0') {
        return None;
    }
    text.parse().ok().filter(|n| *n <= most)
}

/// A decimal number of at most `most`, with no sign and no zero in front.
pub fn number(piece: Piece<'_>, most: u64) -> Result<u64, Fault>
    ensures { MatchResult result (λ n. (n ≤ most) × (piece.entry.text.now ≡ decimal n)) (λ f. BadNumber f most piece.entry.column piece.entry.text.now) }
{
    let bytes = piece.text.as_bytes();
    if let Some(place) = bytes.iter().position(|b| !b.is_ascii_digit()) {
        return Err(Fault::Digit {
            column: piece.column.saturating_add(place),
        });
    }
    value_of(piece.text, most).ok_or(Fault::Number)
}

/// A decimal number of 64 bits, as a count of things in memory.
pub fn count(piece: Piece<'_>) -> Result<usize, Fault>
    ensures { MatchResult result (λ n. piece.entry.text.now ≡ decimal n) (λ f. BadNumber f (2 ^ 64 - 1) piece.entry.column piece.entry.text.now) }
{
    Ok(number(piece, u64::MAX)? as usize)
}
