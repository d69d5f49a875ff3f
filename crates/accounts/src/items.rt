//! The line that tells what the walk over a message hands out.
ghost use Rattle.std.specs.Prelude.{◌≡◌, ◌∷◌, ◌++◌, IfOk, string_bytes, OnOk};
ghost use Rattle.packet.specs.Items.{items};
ghost use Rattle.packet.specs.Reading.{told};
ghost use Rattle.accounts.specs.Next.{shown_step, parted, next_line as next_line_of};

use crate::hex::write_bytes;
use packet::{Item, PacketFault, Walk};
use std::alloc::{AllocError, Global};

/// Writes what the walk answers behind the text, with a blank between.
fn write_step(text: &mut String, step: Result<Item<'_>, PacketFault>) -> Result<(), AllocError>
    ensures { OnOk result (string_bytes text.new ≡ string_bytes text.old ++ (32 ∷ shown_step (told step.entry))) }
{
    match step {
        Ok(
            Item::Packet {
                feed,
                label,
                data,
                place,
            },
        ) => {
            write!(text, " P@{place}:{feed}:")?;
            write_bytes(text, label)?;
            text.push(':')?;
            write_bytes(text, data)
        }
        Ok(Item::End { place }) => write!(text, " END@{place}"),
        Err(fault) => {
            let number = fault.number();
            let place = fault.place();
            write!(text, " F{number}@{place}")
        }
    }
}

/// Writes the items of a message behind the text, each behind a blank.
fn write_items(text: &mut String, message: &[u8]) -> Result<(), AllocError>
    ensures { OnOk result (string_bytes text.new ≡ string_bytes text.old ++ parted (items message.now)) }
{
    let mut walk = Walk::new(message);
    loop {
        let step = walk.next();
        write_step(text, step)?;
        let Ok(Item::Packet { .. }) = step else {
            return Ok(());
        };
    }
}

/// The line that tells the items of a message: its packets, and the end or the first fault.
pub fn next_line(heap: Global, id: &str, message: &[u8]) -> Result<String, AllocError>
    ensures { IfOk result (λ s. string_bytes s ≡ next_line_of id.now (items message.now)) }
{
    let mut text = format!(in heap; "next {id} =")?;
    write_items(&mut text, message)?;
    Ok(text)
}
