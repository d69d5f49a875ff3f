//! Refusals as numbers, and verdicts as text.
ghost use Rattle.std.specs.Prelude.{◌≡◌, Some};
ghost use Rattle.block.specs.Verdicts.{number as number_of, found, shown_found};

use crate::fault::{BlockFault, Verdict};
use std::fmt;

impl BlockFault {
    /// The number of the refusal.
    pub fn number(self) -> u8
        ensures { result ≡ number_of self }
    {
        match self {
            BlockFault::NoDepth => 13,
            BlockFault::BlockLength => 14,
        }
    }
}

// Written out, since clauses read `output`.
impl fmt::Display for Verdict {
    ghost output = { λ v. Some (shown_found (found v)) };

    fn fmt<W: fmt::Write>(&self, f: &mut fmt::Formatter<W>) -> fmt::Result {
        match self {
            Verdict::Codewords => f.write_str("all"),
            Verdict::Broken { lane, root } => write!(f, "{lane} {root}"),
        }
    }
}
