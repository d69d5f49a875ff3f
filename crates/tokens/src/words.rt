//! A line's words, one after another.
ghost use Rattle.std.specs.Prelude.{◌≡◌, ℕ, ◌≤◌, List, ◌++◌, decimal, IfOk, IfErr, MatchResult, ◌≢◌};
ghost use Rattle.std.specs.Str.Iter.{LacksByte};
ghost use Rattle.tokens.specs.declared.fault.Fault.TheVariants.{Key, Shape};
ghost use Rattle.tokens.specs.Words.{spaced, Plain, Cut, Behind};
ghost use Rattle.tokens.specs.Settings.{NoSetting, FollowsWord, BadSetting};

use crate::fault::Fault;
use crate::numbers::number;
use crate::piece::Piece;

/// The first word, and what follows the blank after it.
pub fn word<'a>(piece: Piece<'a>) -> Result<(Piece<'a>, Piece<'a>), Fault>
    ensures { MatchResult result (λ p. Cut piece.entry p.0 p.1) (λ f. (f ≡ Shape) × ((a b : List ℕ) → Plain a → piece.entry.text.now ≢ spaced a b)) }
{
    piece
        .cut(' ')
        .filter(|(first, _)| !first.text.is_empty())
        .ok_or(Fault::Shape)
}

/// What stands behind a key, as `depth=`.
pub fn keyed<'a>(piece: Piece<'a>, key: &str) -> Result<Piece<'a>, Fault>
    ensures { MatchResult result (λ v. Behind key.now piece.entry v) (λ f. (f ≡ Key) × ((v : List ℕ) → piece.entry.text.now ≢ key.now ++ v)) }
{
    let text = piece.text.strip_prefix(key).ok_or(Fault::Key)?;
    Ok(Piece {
        text,
        column: piece.column.saturating_add(key.len()),
    })
}

/// The number of at most `most` behind a key, which may be empty, in the first word, and what follows the blank after it.
pub fn setting<'a>(piece: Piece<'a>, key: &str, most: u64) -> Result<(usize, Piece<'a>), Fault>
    ensures told { MatchResult result (λ p. (p.0 ≤ most) × (piece.entry.text.now ≡ spaced (key.now ++ decimal p.0) p.1.text.now)) (λ _. LacksByte 32 key.now → NoSetting key.now most piece.entry.text.now) }
    ensures rest { IfOk result (λ p. FollowsWord piece.entry p.1) }
    ensures fault { IfErr result (λ f. BadSetting f key.now most piece.entry) }
{
    let (first, rest) = word(piece)?;
    let value = number(keyed(first, key)?, most)? as usize;
    Ok((value, rest))
}
