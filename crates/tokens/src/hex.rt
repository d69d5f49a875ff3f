//! Bytes as text: two lower-case hex digits each.
ghost use Rattle.std.specs.Prelude.{◌≡◌, ℕ, ◌<◌, false, ◌⊎◌, List, [], ◌∷◌, ◌++◌, string_bytes, MatchResult, OnOk};
ghost use Rattle.std.specs.Char.{digit_char};
ghost use Rattle.tokens.specs.declared.fault.Fault.TheVariants.{Memory, Digit};
ghost use Rattle.tokens.specs.Bytes.{is_hex, two_digits, spelled, shown_bytes, NoBytes, BadBytes, BadByte};

use crate::fault::Fault;
use crate::piece::Piece;
use std::alloc::{AllocError, Global};

/// The value of the hex digit at a column.
// `to_digit(16)` takes upper case too, which is no digit here.
fn digit(b: u8, column: usize) -> Result<u8, Fault>
    ensures { MatchResult result (λ d. (d < 16) × (b ≡ digit_char d)) (λ f. (f ≡ Digit column) × (is_hex b ≡ false)) }
{
    match b {
        b'0'..=b'9' => Ok(b - b'0'),
        b'a'..=b'f' => Ok(b - b'a' + 10),
        _ => Err(Fault::Digit { column }),
    }
}

/// The byte whose two digits begin at a column.
fn pair(high: u8, low: u8, column: usize) -> Result<u8, Fault>
    ensures { MatchResult result (λ b. high ∷ low ∷ [] ≡ two_digits b) (λ f. BadByte f column (high ∷ low ∷ [])) }
{
    let high = digit(high, column)?;
    let low = digit(low, column.saturating_add(1))?;
    Ok(high * 16 + low)
}

/// The bytes that a text of hex digits spells.
pub fn hex_bytes(heap: Global, piece: Piece<'_>) -> Result<Vec<u8>, Fault>
    ensures { MatchResult result (λ v. piece.entry.text.now ≡ spelled v.items) (λ f. BadBytes f piece.entry.column piece.entry.text.now) }
{
    let bytes = piece.text.as_bytes();
    let mut out = Vec::new(heap);
    let mut rest = bytes;
    while let [high, low, more @ ..] = rest {
        let column = piece.column.saturating_add(bytes.len() - rest.len());
        let b = pair(*high, *low, column)?;
        out.push(b)?;
        rest = more;
    }
    match rest {
        [] => Ok(out),
        _ => Err(Fault::Half),
    }
}

/// The same, with `-` for no bytes.
pub fn bytes(heap: Global, piece: Piece<'_>) -> Result<Vec<u8>, Fault>
    ensures { MatchResult result (λ v. piece.entry.text.now ≡ shown_bytes v.items) (λ f. (f ≡ Memory) ⊎ NoBytes piece.entry.text.now) }
{
    match piece.text {
        "-" => Ok(Vec::new(heap)),
        "" => Err(Fault::Shape),
        _ => hex_bytes(heap, piece),
    }
}

/// The byte that a text of two hex digits is.
pub fn byte(piece: Piece<'_>) -> Result<u8, Fault>
    ensures { MatchResult result (λ b. piece.entry.text.now ≡ two_digits b) (λ f. BadByte f piece.entry.column piece.entry.text.now) }
{
    match piece.text.as_bytes() {
        [high, low] => pair(*high, *low, piece.column),
        [] | [_] => Err(Fault::Half),
        _ => Err(Fault::Number),
    }
}

/// The character of a hex digit.
fn digit_of(value: u8) -> char
    requires { value < 16 }
    ensures { result ≡ digit_char value }
{
    char::from_digit(u32::from(value), 16).unwrap()
}

/// Writes the two digits of a byte behind the text.
// By `write!(text, "{b:02x}")` each byte goes through a formatter, which takes several times as long.
pub fn write_byte(text: &mut String, b: u8) -> Result<(), AllocError>
    ensures { OnOk result (string_bytes text.new ≡ string_bytes text.old ++ two_digits b) }
{
    text.push(digit_of(b / 16))?;
    text.push(digit_of(b % 16))
}
