//! A part of a line, with the column where it begins.
ghost use Rattle.std.specs.Prelude.{◌≡◌, ◌<◌, length, IfSome, MatchOption};
ghost use Rattle.std.specs.Char.{len_utf8};
ghost use Rattle.std.specs.Str.Iter.{LacksByte};
ghost use Rattle.tokens.specs.Words.{CutAt};
ghost use Rattle.tokens.specs.Columns.{ahead};

/// Columns count bytes from 0; a column past `usize::MAX` is given as `usize::MAX`.
#[derive(Clone, Copy, Debug)]
pub struct Piece<'a> {
    pub text: &'a str,
    pub column: usize,
}

impl<'a> Piece<'a> {
    /// The piece before the first of a mark, and the piece behind it.
    pub fn cut(self, mark: char) -> Option<(Piece<'a>, Piece<'a>)>
        ensures text { mark < 128 → MatchOption result (LacksByte mark self.entry.text.now) (λ p. CutAt mark self.entry.text.now p.0.text.now p.1.text.now) }
        ensures columns { IfSome result (λ p. (p.0.column ≡ self.entry.column) × (p.1.column ≡ ahead (ahead self.entry.column (length p.0.text.now)) (len_utf8 mark))) }
    {
        let (first, rest) = self.text.split_once(mark)?;
        let column = self
            .column
            .saturating_add(first.len())
            .saturating_add(mark.len_utf8());
        Some((
            Piece {
                text: first,
                ..self
            },
            Piece { text: rest, column },
        ))
    }
}
