//! Calls on a bank, and the lines that answer them.
#![tactic(auto)]

mod calls;
mod registers;

pub use calls::{bank_line, clear_line, hold_line, read_line, restore_line, set_line, take_line};
pub use registers::regs_line;
