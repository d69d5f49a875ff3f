//! The bank that a text asks for.
ghost use Rattle.std.specs.Prelude.{◌≡◌, [], length, replicate, MatchOption, ◌==◌, slice_index};
ghost use Rattle.bank.specs.Lanes.{zeros};
ghost use Rattle.lineup.specs.Built.{assembly_lanes, Builds, NoBank};
ghost use Rattle.lineup.specs.Kinds.{listed};

use crate::built::{Assembly, Built};
use crate::kinds::Kinds;
use crate::reading::read_part;
use bank::{Holder, Pair};
use rack::{Choice, Rack};

/// The most pairs and holders inside one another that a text may have.
const DEEPEST: usize = 64;

/// Whether a text begins with `h`.
fn begins_as_holder(text: &[u8]) -> bool
    ensures { result ≡ (slice_index text.now 0 == 104) }
{
    matches!(text, [b'h', ..])
}

/// Dividers of these kinds in a bank, all registers zero: one alone, and more as a pair of all but the last and the last. None of none.
fn assembled(kinds: &Kinds) -> Option<Assembly>
    ensures { MatchOption result (listed kinds.now ≡ []) (λ a. assembly_lanes a ≡ replicate (length (listed kinds.now)) zeros) }
{
    match kinds.kinds.as_slice() {
        [] => None,
        [only] => Some(Choice::First(Rack::new(&[*only])?)),
        [front @ .., last] => {
            let left = Rack::new(front)?;
            let right = Rack::new(&[*last])?;
            Some(Choice::Second(Pair::new(left, right)))
        }
    }
}

/// The bank that a text asks for, with all registers and the copy zero; none where the text is that of no bank.
pub fn bank_of(text: &[u8]) -> Option<Built>
    ensures { MatchOption result (NoBank text.now) (λ b. Builds text.now b) }
{
    let mut kinds = Kinds::new();
    let rest = read_part(text, DEEPEST, &mut kinds)?;
    if !rest.is_empty() {
        return None;
    }
    let bank = assembled(&kinds)?;
    Some(Built {
        bank: Holder::new(bank),
        holds: begins_as_holder(text),
    })
}
