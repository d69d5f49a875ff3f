//! Lists of values that have a written form, with commas between.
ghost use Rattle.std.specs.Prelude.{◌≡◌, ℕ, ◌⊎◌, List, ◌++◌, string_bytes, MatchResult, OnOk};
ghost use Rattle.tokens.specs.declared.fault.Fault.TheVariants.{Memory};
ghost use Rattle.spelling.specs.Lists.{written_list, NoList};

use crate::spelled::Spelled;
use std::alloc::{AllocError, Global};
use tokens::{Fault, Piece};

/// The values that the text lists: `-` is none.
pub fn read_list<S: Spelled>(heap: Global, piece: Piece<'_>) -> Result<Vec<S>, Fault>
    ensures { MatchResult result (λ v. piece.entry.text.now ≡ written_list S.written v.items) (λ f. (f ≡ Memory) ⊎ NoList S.written piece.entry.text.now) }
{
    let mut out = Vec::new(heap);
    if piece.text == "-" {
        return Ok(out);
    }
    let mut rest = piece;
    while let Some((first, more)) = rest.cut(',') {
        out.push(S::read(first)?)?;
        rest = more;
    }
    out.push(S::read(rest)?)?;
    Ok(out)
}

/// Writes the values behind the text, with commas between.
pub fn write_list<S: Spelled>(text: &mut String, items: &[S]) -> Result<(), AllocError>
    ensures { OnOk result (string_bytes text.new ≡ string_bytes text.old ++ written_list S.written items.now) }
{
    match items {
        [] => text.push('-'),
        [first, rest @ ..] => {
            first.write(text)?;
            for item in rest {
                text.push(',')?;
                item.write(text)?;
            }
            Ok(())
        }
    }
}
