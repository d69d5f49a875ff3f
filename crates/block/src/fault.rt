//! Why a block is refused, and what a check of one says.

/// Why a block is refused before any of its bytes is read.
#[derive(Clone, Copy, Debug, PartialEq, Eq)]
pub enum BlockFault {
    /// There is no such depth.
    NoDepth,
    /// The block has not 255 bytes for each lane.
    BlockLength,
}

/// What a check finds.
// An enum of its own and no Option: it has a text of its own, and answers name both cases.
#[derive(Clone, Copy, Debug, PartialEq, Eq)]
pub enum Verdict {
    /// Every sum is zero: each lane is a codeword.
    Codewords,
    /// The sum of this lane at γ to this power is the first that is not zero, lanes first.
    Broken { lane: usize, root: u8 },
}
