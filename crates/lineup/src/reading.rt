//! What a text says of a bank.
ghost use Rattle.std.specs.Prelude.{MatchOption};
ghost use Rattle.lineup.specs.Kinds.{Listed};
ghost use Rattle.lineup.specs.Plans.{BeginsNone};

use crate::kinds::Kinds;
use rack::Kind;

/// Reads a bank from the front of a text, lists its dividers, and hands out the rest. At most so many pairs and holders stand inside one
/// another.
pub(crate) fn read_part<'a>(text: &'a [u8], depth: usize, kinds: &mut Kinds) -> Option<&'a [u8]>
    ensures { MatchOption result (BeginsNone depth text.now) (λ rest. Listed depth text.now rest.now kinds.old kinds.new) }
{
    let (first, rest) = text.split_first()?;
    match *first {
        b'T' => {
            kinds.push(Kind::Table);
            Some(rest)
        }
        b'B' => {
            kinds.push(Kind::Serial);
            Some(rest)
        }
        digit @ b'2'..=b'8' => {
            kinds.push_tables(digit - b'0');
            Some(rest)
        }
        b'h' if depth > 0 => {
            let inner = rest.strip_prefix(b"[")?;
            let rest = read_part(inner, depth - 1, kinds)?;
            rest.strip_prefix(b"]")
        }
        b'(' if depth > 0 => {
            let rest = read_part(rest, depth - 1, kinds)?;
            let rest = rest.strip_prefix(b",")?;
            let rest = read_part(rest, depth - 1, kinds)?;
            rest.strip_prefix(b")")
        }
        _ => None,
    }
}
