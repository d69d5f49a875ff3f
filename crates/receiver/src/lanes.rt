//! The block layer: the lanes of a block are corrected one by one, and their message symbols woven together.
ghost use Rattle.std.specs.Prelude.{◌≡◌, ◌<◌, length, take};
ghost use Rattle.reception.specs.Messages.{message_length};
ghost use Rattle.receiver.specs.Lanes.{Stands, OthersKept, LaneTold, LanesTold, Written};
ghost use Rattle.receiver.specs.Words.{word_of};

use crate::codeword::{MESSAGE_SYMBOLS, correct_word};
use bank::LANES;
use block::{Block, Depth};
use code::SYMBOLS;
use correction::NoCodeword;
use reception::LaneFault;

/// The bytes of the longest message.
const MESSAGE_MAX: usize = MESSAGE_SYMBOLS * LANES;

/// Writes the message symbols of a word to the places of its lane.
// That there is such a lane is asked here and below: a type for a lane's number would have to hold the block.
fn write_lane(message: &mut [u8; MESSAGE_MAX], depth: Depth, lane: usize, bytes: &[u8; SYMBOLS])
    requires { lane < depth.lanes }
    ensures written { Stands depth.lanes lane (word_of bytes.now) message.new }
    ensures others { OthersKept depth.lanes lane message.old message.new }
{
    // By index: behind chunks_exact_mut or step_by a proof knows the message's length, but no byte of it.
    for (i, byte) in bytes[..MESSAGE_SYMBOLS].iter().enumerate() {
        message[i * depth.lanes + lane] = *byte;
    }
}

/// Corrects one lane and writes its message symbols; how many of its symbols were wrong. A fault is given its lane.
fn correct_lane(
    block: &Block,
    message: &mut [u8; MESSAGE_MAX],
    lane: usize,
) -> Result<usize, LaneFault>
    requires { lane < block.now.depth.lanes }
    ensures { LaneTold block.now.depth.lanes block.now.bytes.now lane message.old message.new result }
{
    let mut bytes = block.lane(lane).unwrap();
    let wrong = correct_word(&mut bytes).map_err(|_: NoCodeword| LaneFault { lane })?;
    write_lane(message, block.depth, lane, &bytes);
    Ok(wrong)
}

/// Corrects every lane and writes the message; how many symbols were wrong. The lowest lane that has no codeword is named.
fn correct_lanes(block: &Block, message: &mut [u8; MESSAGE_MAX]) -> Result<usize, LaneFault>
    ensures { LanesTold block.now.depth.lanes block.now.bytes.now (take (message_length block.now.depth.lanes) message.new) result }
{
    let mut wrong = 0;
    for lane in 0..block.depth.lanes {
        wrong += correct_lane(block, message, lane)?;
    }
    Ok(wrong)
}

/// Corrects every lane, and writes the message once all have their codewords.
pub(crate) fn write_message(block: &Block, message: &mut [u8]) -> Result<usize, LaneFault>
    requires { length message.old ≡ message_length block.now.depth.lanes }
    ensures { Written block.now.depth.lanes block.now.bytes.now message.old message.new result }
{
    // Memory for the longest message: there is no heap on board.
    let mut work = [0; MESSAGE_MAX];
    let wrong = correct_lanes(block, &mut work)?;
    message.copy_from_slice(&work[..message.len()]);
    Ok(wrong)
}
