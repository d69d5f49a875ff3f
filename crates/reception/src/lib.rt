//! What receiving a block answers: the codeword near each lane, the message that they carry and its packets, or a fault.
#![tactic(auto)]

mod conversion;
mod fault;
mod laws;
mod shown;

pub use fault::{LaneFault, Layer, ReceiveFault, Refusal, Spot};
pub use laws::{
    at_most_one_answer, at_most_one_codeword, check_and_receive_agree, damage_is_undone,
};
