//! A rack with dividers of given kinds.
ghost use Rattle.std.specs.Prelude.{◌≡◌, ◌<◌, ◌⊎◌, map, length, replicate, MatchOption};
ghost use Rattle.bank.specs.Lanes.{zeros};
ghost use Rattle.rack.specs.Dividers.{divider_lanes, kind_of};
ghost use Rattle.rack.specs.Rows.{row};

use crate::kind::{Divider, Kind};
use crate::row::Row;
use arrayvec::ArrayVec;
use bank::LANES;

/// Dividers in a row, each of either kind.
pub type Rack = Row<Divider>;

impl Row<Divider> {
    /// A rack of dividers of these kinds, with all registers zero; none of no divider, or of more than 8.
    pub fn new(kinds: &[Kind]) -> Option<Rack>
        ensures { MatchOption result ((length kinds.now < 1) ⊎ (8 < length kinds.now)) (λ k. (row divider_lanes k.banks.items ≡ replicate (length kinds.now) zeros) × (map kind_of k.banks.items ≡ kinds.now)) }
    {
        if kinds.is_empty() || kinds.len() > LANES {
            return None;
        }
        let mut banks = ArrayVec::new();
        for kind in kinds {
            banks.push(Divider::from(*kind));
        }
        Some(Row { banks })
    }
}
