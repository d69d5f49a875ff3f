//! Why a block is not received: the fault of each layer, and what it is told as.

use block::BlockFault;
use packet::PacketFault;

/// No codeword is near enough to this lane.
#[derive(Clone, Copy, Debug, PartialEq, Eq)]
pub struct LaneFault {
    pub lane: usize,
}

/// Why a block is not received.
#[derive(Clone, Copy, Debug, PartialEq, Eq)]
pub enum ReceiveFault {
    /// The block is refused before any of its bytes is read.
    Block(BlockFault),
    /// The message buffer has not 223 bytes for each lane.
    MessageLength,
    /// A lane has no codeword; no lane before it is without one.
    Lane(LaneFault),
    /// The corrected message does not consist of packets.
    Packets(PacketFault),
}

/// The layer that finds a fault.
#[derive(Clone, Copy, Debug, PartialEq, Eq)]
pub enum Layer {
    Codeword,
    Block,
    Receiver,
}

/// What a fault names: nothing, a lane of the block, or a place in the message.
#[derive(Clone, Copy, Debug, PartialEq, Eq)]
pub enum Spot {
    Nowhere,
    Lane(usize),
    Place(usize),
}

/// What a fault is told as.
// Its number is a field, since the project's answers are told so: a number, a layer, and a lane or a place.
#[derive(Clone, Copy, Debug, PartialEq, Eq)]
pub struct Refusal {
    pub number: u8,
    pub layer: Layer,
    pub spot: Spot,
}
