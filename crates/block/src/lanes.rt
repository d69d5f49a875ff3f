//! The depths that there are, the blocks of a depth, and their lanes as polynomials.
ghost use Rattle.std.specs.Prelude.{◌≡◌, ◌<◌};
ghost use Rattle.block.specs.Lanes.{word, lane_of, Interleaved};
ghost use Rattle.block.specs.Verdicts.{lanes_told, lanes_of, block_told, block_of};

use crate::depth::{Block, Depth};
use crate::fault::BlockFault;
use code::SYMBOLS;
use dual_form::Dual;
use std::array;

/// The depth with this number of lanes, if there is one.
impl TryFrom<usize> for Depth {
    type Error = BlockFault;

    ghost try_from_gives = { λ lanes r. lanes_told r ≡ lanes_of lanes };

    fn try_from(lanes: usize) -> Result<Depth, BlockFault> {
        if matches!(lanes, 1..=5 | 8) {
            Ok(Depth { lanes })
        } else {
            Err(BlockFault::NoDepth)
        }
    }
}

impl<'a> Block<'a> {
    /// The block of these bytes, if there is such a depth and they are as many as it has.
    pub fn new(bytes: &'a [u8], depth: usize) -> Result<Block<'a>, BlockFault>
        ensures { block_told result ≡ block_of bytes.now depth }
    {
        let depth = Depth::try_from(depth)?;
        if bytes.len() != SYMBOLS * depth.lanes {
            return Err(BlockFault::BlockLength);
        }
        Ok(Block { bytes, depth })
    }

    /// The bytes of a lane in the order in which they are sent, if there is such a lane.
    pub fn lane(&self, lane: usize) -> Option<[u8; SYMBOLS]>
        ensures { result ≡ lane_of self.now.depth.lanes self.now.bytes.now lane }
    {
        if lane >= self.depth.lanes {
            return None;
        }
        Some(array::from_fn(|i| self.bytes[i * self.depth.lanes + lane]))
    }

    /// The lane's symbols C_0 to C_254.
    // That there is such a lane is asked of the two loops over lanes: a type for a lane's number would have to hold the block.
    pub(crate) fn word(&self, lane: usize) -> [Dual; SYMBOLS]
        requires { lane < self.now.depth.lanes }
        ensures { result ≡ word self.now.depth.lanes self.now.bytes.now lane }
    {
        // By an array's `map`, a check that breaks at its first sum takes a third longer.
        let bytes = self.lane(lane).unwrap();
        array::from_fn(|k| Dual::new(bytes[SYMBOLS - 1 - k]))
    }
}

/// Where each byte of a block belongs: a theorem, with nothing to compute.
pub fn interleaving_stands()
    ensures { Interleaved }
{}
