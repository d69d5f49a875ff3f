//! The sums that were worked out on paper, as one theorem.
#![tactic(auto)]

ghost use Rattle.worked.specs.Sums.{WorkedSums};

/// The worked sums hold: a theorem, with nothing to compute.
pub fn worked_sums_stand()
    ensures { WorkedSums }
{}
