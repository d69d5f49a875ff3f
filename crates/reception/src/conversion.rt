//! How the faults of each layer rise to the receiver, and what they are told as.
ghost use Rattle.std.specs.Prelude.{◌≡◌};
ghost use Rattle.reception.specs.Faults.{refusal_of, lane_of, place_of};
ghost use Rattle.reception.specs.declared.fault.ReceiveFault.TheVariants.{Block, Lane, Packets};

use crate::fault::{LaneFault, Layer, ReceiveFault, Refusal, Spot};
use block::BlockFault;
use packet::PacketFault;

// Written out, since the contract of a `?` reads `from_gives`.
impl From<BlockFault> for ReceiveFault {
    ghost from_gives = { λ f r. r ≡ Block f };

    fn from(fault: BlockFault) -> ReceiveFault {
        ReceiveFault::Block(fault)
    }
}

impl From<LaneFault> for ReceiveFault {
    ghost from_gives = { λ f r. r ≡ Lane f };

    fn from(fault: LaneFault) -> ReceiveFault {
        ReceiveFault::Lane(fault)
    }
}

impl From<PacketFault> for ReceiveFault {
    ghost from_gives = { λ f r. r ≡ Packets f };

    fn from(fault: PacketFault) -> ReceiveFault {
        ReceiveFault::Packets(fault)
    }
}

impl ReceiveFault {
    /// The number, the layer, and the lane or place of the fault.
    pub fn refusal(self) -> Refusal
        ensures { result ≡ refusal_of self }
    {
        match self {
            ReceiveFault::Block(fault) => Refusal {
                number: fault.number(),
                layer: Layer::Block,
                spot: Spot::Nowhere,
            },
            ReceiveFault::MessageLength => Refusal {
                number: 15,
                layer: Layer::Receiver,
                spot: Spot::Nowhere,
            },
            ReceiveFault::Lane(fault) => Refusal {
                number: 16,
                layer: Layer::Codeword,
                spot: Spot::Lane(fault.lane),
            },
            ReceiveFault::Packets(fault) => Refusal {
                number: fault.number(),
                layer: Layer::Receiver,
                spot: Spot::Place(fault.place()),
            },
        }
    }
}

impl Spot {
    /// The lane that is named, if one is.
    pub fn lane(self) -> Option<usize>
        ensures { result ≡ lane_of self }
    {
        match self {
            Spot::Lane(lane) => Some(lane),
            Spot::Nowhere | Spot::Place(_) => None,
        }
    }

    /// The place that is named, if one is.
    pub fn place(self) -> Option<usize>
        ensures { result ≡ place_of self }
    {
        match self {
            Spot::Place(place) => Some(place),
            Spot::Nowhere | Spot::Lane(_) => None,
        }
    }
}
