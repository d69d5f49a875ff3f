//! The check of a block: whether every sum of every lane is zero.
ghost use Rattle.std.specs.Prelude.{◌≡◌};
ghost use Rattle.block.specs.Verdicts.{answer, found, first_broken as first_broken_of, check_of, Accepts};

use crate::depth::Block;
use crate::fault::{BlockFault, Verdict};
use code::{CHECKS, FIRST_ROOT, gamma, gamma_to};
use dual_form::Dual;
use field::{Field, is_root};

/// The first lane and root whose sum is not zero, lanes first.
fn first_broken(block: &Block) -> Verdict
    ensures { found result ≡ first_broken_of block.now.depth.lanes block.now.bytes.now block.now.depth.lanes 0 }
{
    let step: Dual = gamma();
    // Two loops left by one label, a form that the project fixes: it is the first lane and, in it, the first root that is told.
    'lanes: {
        for lane in 0..block.depth.lanes {
            let symbols = block.word(lane);
            let mut x: Dual = gamma_to(FIRST_ROOT);
            for root in FIRST_ROOT..FIRST_ROOT + CHECKS {
                if !is_root(&symbols, x) {
                    break 'lanes Verdict::Broken { lane, root };
                }
                x = step.times(x);
            }
        }
        Verdict::Codewords
    }
}

/// Whether each lane of the block is a codeword, or else the first lane and root whose sum is not zero.
pub fn check(block: &[u8], depth: usize) -> Result<Verdict, BlockFault>
    ensures verdict { answer result ≡ check_of block.now depth }
    ensures accepts { Accepts block.now depth (answer result) }
{
    let block = Block::new(block, depth)?;
    Ok(first_broken(&block))
}

#[cfg(test)]
mod tests {
    use super::*;

    #[test]
    fn equal_symbols_until_one_is_altered(rt: HostRuntime) {
        let mut block = [0x7b; 255];
        assert_eq!(rt; check(&block, 1), Ok(Verdict::Codewords));
        block[0] = 0;
        let lane = 0;
        let root = 112;
        assert_eq!(rt; check(&block, 1), Ok(Verdict::Broken { lane, root }));
        assert_eq!(rt; check(&block, 2), Err(BlockFault::BlockLength));
        assert_eq!(rt; check(&block, 6), Err(BlockFault::NoDepth));
    }
}
