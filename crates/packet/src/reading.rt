//! What stands at a place of a message.
ghost use Rattle.std.specs.Prelude.{◌≡◌, ◌+◌, ◌^◌, ◌<◌, ◌≤◌, ◌∷◌, length};
ghost use Rattle.packet.specs.Reading.{told, filled, from_data, from_label, from_feed, step_at, size};

use crate::fault::PacketFault;
use crate::item::Item;

/// The length of the longest label.
const LABEL_MAX: u8 = 16;

/// The end at `place`, if each byte behind it is 00.
fn end_at<'a>(place: usize, fill: &[u8]) -> Result<Item<'a>, PacketFault>
    requires { place + 1 + length fill.now < 2 ^ 64 }
    ensures { told result ≡ filled place (place + 1) fill.now }
{
    match fill.iter().position(|byte| *byte != 0) {
        Some(i) => Err(PacketFault::AfterEnd {
            place: place + 1 + i,
        }),
        None => Ok(Item::End { place }),
    }
}

/// The packet at `place` with this feed and label; `rest` begins with its data count.
fn with_data<'a>(
    place: usize,
    feed: u8,
    label: &'a [u8],
    rest: &'a [u8],
) -> Result<Item<'a>, PacketFault>
    requires { place + 2 + length label.now < 2 ^ 64 }
    ensures { told result ≡ from_data place feed label.now rest.now }
{
    match rest {
        [] => Err(PacketFault::PastEnd { place }),
        [0, ..] => Err(PacketFault::NoData {
            place: place + 2 + label.len(),
        }),
        [count, rest @ ..] => {
            let data = rest
                .get(..usize::from(*count))
                .ok_or(PacketFault::PastEnd { place })?;
            Ok(Item::Packet {
                feed,
                label,
                data,
                place,
            })
        }
    }
}

/// The packet at `place` with this feed and label count, which `rest` follows.
fn with_label<'a>(
    place: usize,
    feed: u8,
    count: u8,
    rest: &'a [u8],
) -> Result<Item<'a>, PacketFault>
    requires { place + 2 + length rest.now < 2 ^ 64 }
    ensures { told result ≡ from_label place feed (count ∷ rest.now) }
{
    if count > LABEL_MAX {
        return Err(PacketFault::LabelCount { place: place + 1 });
    }
    let (label, rest) = rest
        .split_at_checked(usize::from(count))
        .ok_or(PacketFault::PastEnd { place })?;
    with_data(place, feed, label, rest)
}

/// What stands at the front of `rest`, which begins at `place`.
// A place and the bytes from it on stay two: the slice is taken apart by patterns, a form that the project fixes.
fn front<'a>(place: usize, rest: &'a [u8]) -> Result<Item<'a>, PacketFault>
    requires { place + length rest.now < 2 ^ 64 }
    ensures { told result ≡ from_feed place rest.now }
{
    match rest {
        [] => Ok(Item::End { place }),
        [0, fill @ ..] => end_at(place, fill),
        [_] => Err(PacketFault::PastEnd { place }),
        [feed, count, rest @ ..] => with_label(place, *feed, *count, rest),
    }
}

/// What stands at a place of a message.
pub(crate) fn item_at<'a>(message: &'a [u8], place: usize) -> Result<Item<'a>, PacketFault>
    requires { place ≤ length message.now }
    ensures item { told result ≡ step_at place message.now }
    ensures inside { place + size (told result) ≤ length message.now }
{
    front(place, &message[place..])
}
