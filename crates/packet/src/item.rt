//! What a walk over a message hands out.

/// A packet, as parts of the message that it stands in, or the end of the packets; places count the message's bytes from 0.
// No Option of a packet: the end is told with its place, too.
#[derive(Clone, Copy, Debug, PartialEq, Eq)]
pub enum Item<'a> {
    /// The packet whose feed byte stands at the place.
    Packet {
        feed: u8,
        label: &'a [u8],
        data: &'a [u8],
        place: usize,
    },
    /// From the place on there are only bytes 00.
    End {
        place: usize,
    },
}
