//! The receiver layer: a block is received.
ghost use Rattle.reception.specs.Reception.{answer, Receives};

use crate::codeword::MESSAGE_SYMBOLS;
use crate::lanes::write_message;
use block::Block;
use packet::count_packets;
use reception::ReceiveFault;

/// Receives a block: writes its message, and tells how many of the block's symbols were wrong and how many packets the message holds.
/// Unless every lane has its codeword, the message buffer is left as it was.
pub fn receive(
    block: &[u8],
    message: &mut [u8],
    depth: usize,
) -> Result<(usize, usize), ReceiveFault>
    ensures { Receives depth block.now message.old (answer result) message.new }
{
    let block = Block::new(block, depth)?;
    if message.len() != MESSAGE_SYMBOLS * block.depth.lanes {
        return Err(ReceiveFault::MessageLength);
    }
    let wrong = write_message(&block, message)?;
    let packets = count_packets(message)?;
    Ok((wrong, packets))
}

#[cfg(test)]
mod tests {
    use super::*;
    use code::SYMBOLS;
    use std::array;
    use std::process::Abort;
    use std::test::Fail;

    // The block is refused with this number, and the message buffer is as it was.
    fn check_refused(
        rt: &impl Abort,
        block: &[u8],
        message: &mut [u8],
        depth: usize,
        number: u8,
    ) -> Result<(), Fail> {
        let Err(fault) = receive(block, message, depth) else {
            return Err(Fail::new("received"));
        };
        assert_eq!(rt; fault.refusal().number, number);
        assert!(rt; message.iter().all(|byte| *byte == 0xa5));
        Ok(())
    }

    // Zeros, but for every fifteenth symbol from a place on.
    fn wrong_from(first: usize) -> [u8; SYMBOLS] {
        array::from_fn(|i| if i >= first && i % 15 == 0 { 0x7b } else { 0 })
    }

    // With 17 wrong symbols there is no codeword, and with 16 it is an empty message.
    #[test]
    fn refusals_leave_the_message(rt: HostRuntime) -> Result<(), Fail> {
        let lost = wrong_from(0);
        let mut message = [0xa5; 223];
        let mut short = [0xa5; 222];
        check_refused(&rt, &lost, &mut message, 6, 13)?;
        check_refused(&rt, &lost, &mut message, 2, 14)?;
        check_refused(&rt, &lost, &mut short, 1, 15)?;
        check_refused(&rt, &lost, &mut message, 1, 16)?;
        assert_eq!(rt; receive(&wrong_from(1), &mut message, 1), Ok((16, 0)));
        assert_eq!(rt; message[0], 0);
        Ok(())
    }
}
