//! The calls that a line can be.

/// What is done with a bank, from its making to its end.
#[derive(Drop)]
pub enum Call {
    /// Makes the bank that the plan says.
    Bank { id: String, plan: String },
    /// Takes a symbol into a lane.
    Take { lane: usize, byte: u8 },
    /// Reads a place of a lane's registers.
    Read { lane: usize, place: usize },
    /// Writes a place of a lane's registers.
    Set { lane: usize, place: usize, byte: u8 },
    /// Clears every register.
    Clear,
    /// Keeps a copy of all registers.
    Hold,
    /// Takes back the registers that were kept.
    Restore,
    /// Reads all registers of a lane.
    Regs { lane: usize },
    /// Gives the bank up.
    End,
}
