//! The packets of a whole message, and what the walk makes of the symbols of packets.
ghost use Rattle.std.specs.Prelude.{◌≡◌};
ghost use Rattle.packet.specs.Items.{count_of};
ghost use Rattle.packet.specs.Laws.{WalksBack, OnlyPackets};

use crate::fault::PacketFault;
use crate::item::Item;
use crate::walk::Walk;

/// How many packets the message holds, or the fault that the walk meets.
pub fn count_packets(message: &[u8]) -> Result<usize, PacketFault>
    ensures { result ≡ count_of message.now }
{
    let mut walk = Walk::new(message);
    let mut packets: usize = 0;
    while let Item::Packet { .. } = walk.next()? {
        packets += 1;
    }
    Ok(packets)
}

/// The walk gives packets back from their symbols, and ends without a fault over nothing else: two theorems, with nothing to compute.
pub fn walk_stands()
    ensures back { WalksBack }
    ensures only { OnlyPackets }
{}

#[cfg(test)]
mod tests {
    use super::*;
    use std::process::Abort;
    use std::test::Fail;

    fn check_fault(rt: &impl Abort, message: &[u8], number: u8, place: usize) -> Result<(), Fail> {
        let Err(fault) = count_packets(message) else {
            return Err(Fail::new("no fault"));
        };
        assert_eq!(rt; fault.number(), number);
        assert_eq!(rt; fault.place(), place);
        Ok(())
    }

    #[test]
    fn two_packets_and_every_fault(rt: HostRuntime) -> Result<(), Fail> {
        let message = [7, 1, 0x4c, 2, 0x41, 0x42, 9, 0, 1, 0x43, 0, 0];
        assert_eq!(rt; count_packets(&message), Ok(2));
        check_fault(&rt, &[7, 17], 17, 1)?;
        check_fault(&rt, &[7, 1, 0x4c, 0], 18, 3)?;
        check_fault(&rt, &message[..9], 19, 6)?;
        check_fault(&rt, &[0, 0, 5], 20, 2)
    }
}
