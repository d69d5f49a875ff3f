//! Why the bytes of a message are no packets.
ghost use Rattle.std.specs.Prelude.{◌≡◌};
ghost use Rattle.packet.specs.Faults.{fault_number, fault_place};

/// Places count the message's bytes from 0.
#[derive(Clone, Copy, Debug, PartialEq, Eq)]
pub enum PacketFault {
    /// This label count is too large.
    LabelCount { place: usize },
    /// This data count is 0.
    NoData { place: usize },
    /// The packet with this feed byte passes the end of the message.
    PastEnd { place: usize },
    /// This byte behind the end of the packets is not 00.
    AfterEnd { place: usize },
}

impl PacketFault {
    /// The number of the refusal.
    pub fn number(self) -> u8
        ensures { result ≡ fault_number self }
    {
        match self {
            PacketFault::LabelCount { .. } => 17,
            PacketFault::NoData { .. } => 18,
            PacketFault::PastEnd { .. } => 19,
            PacketFault::AfterEnd { .. } => 20,
        }
    }

    /// The place of the byte at fault.
    pub fn place(self) -> usize
        ensures { result ≡ fault_place self }
    {
        match self {
            PacketFault::LabelCount { place }
            | PacketFault::NoData { place }
            | PacketFault::PastEnd { place }
            | PacketFault::AfterEnd { place } => place,
        }
    }
}
