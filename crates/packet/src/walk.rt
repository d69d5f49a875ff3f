//! The walk over a message, packet by packet.
ghost use Rattle.std.specs.Prelude.{◌≡◌, ◌+◌, ◌^◌, ◌<◌, ◌≤◌, length, Ok};
ghost use Rattle.packet.specs.Reading.{told, step_at, size};

use crate::fault::PacketFault;
use crate::item::Item;
use crate::reading::item_at;

impl Item<'_> {
    /// How many bytes it takes.
    fn size(self) -> usize
        requires { size (told (Ok self)) < 2 ^ 64 }
        ensures { result ≡ size (told (Ok self.entry)) }
    {
        match self {
            Item::Packet { label, data, .. } => 3 + label.len() + data.len(),
            Item::End { .. } => 0,
        }
    }
}

/// A place in a message, from which on its packets are still to be handed out.
#[derive(Drop)]
pub struct Walk<'a> {
    message: &'a [u8],
    place: usize,
    ghost within: { place ≤ length message.now },
}

impl<'a> Walk<'a> {
    /// The walk over a message, from its first byte on.
    pub fn new(message: &'a [u8]) -> Walk<'a>
        ensures over { result.message.now ≡ message.now }
        ensures start { result.place ≡ 0 }
    {
        Walk { message, place: 0 }
    }

    /// Hands out the packet at the place and moves behind it; at the end or a fault the place stays, so that the next answer is the same.
    pub fn next(&mut self) -> Result<Item<'a>, PacketFault>
        ensures answer { told result ≡ step_at self.old.place self.old.message.now }
        ensures after { self.new.place ≡ self.old.place + size (told result) }
        ensures over { self.new.message.now ≡ self.old.message.now }
        ensures again { size (told result) ≡ 0 → step_at self.new.place self.new.message.now ≡ told result }
    {
        let item = item_at(self.message, self.place)?;
        self.place += item.size();
        Ok(item)
    }
}
