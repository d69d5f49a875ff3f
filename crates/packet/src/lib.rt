//! Packets: how they stand in a message, and the walk over a message that hands them out one by one.
#![tactic(auto)]

mod counting;
mod fault;
mod item;
mod reading;
mod walk;

pub use counting::{count_packets, walk_stands};
pub use fault::PacketFault;
pub use item::Item;
pub use walk::Walk;
