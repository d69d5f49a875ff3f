//! Banks: 1 to 8 lanes of the registers of dividers. Two banks stand side by side as one, and a bank can hold a copy of its registers.
#![tactic(auto)]

mod fault;
mod feeding;
mod holder;
mod pair;

ghost use Rattle.std.specs.Prelude.{◌≡◌, length};
ghost use Rattle.bank.specs.Claims.{Banks};
ghost use Rattle.bank.specs.Lanes.{Lanes, Shaped, answer as answered, answer_if, lane_there, place_there, all_cleared, fed, placed, told};

pub use fault::BankFault;
pub use feeding::{read_alike, read_all, take_all};
pub use holder::{Holder, three_held};
pub use pair::Pair;

/// The number of registers in a lane.
pub const REGISTERS: usize = code::CHECKS as usize;

/// The most lanes that a bank has.
pub const LANES: usize = 8;

/// Lanes of registers, each of which takes symbols as a divider does.
// A lane and a place stay two numbers: requests give them so, and no fact binds the one to the other, so that a struct would be no plainer.
pub trait Bank {
    // the registers of each lane, R_0 first
    ghost lanes: { Self → Lanes };

    /// How many lanes there are.
    fn count(&self) -> usize
        ensures { result ≡ length (lanes self.now) };

    /// Makes every register zero.
    fn clear(&mut self)
        ensures { lanes self.new ≡ all_cleared (lanes self.old) };

    /// Takes the symbol with this byte into a lane.
    fn take(&mut self, lane: usize, byte: u8) -> Result<(), BankFault>
        ensures answer { answered result ≡ answer_if (lane_there (lanes self.old) lane) }
        ensures after { lanes self.new ≡ fed (lanes self.old) lane byte };

    /// The byte of one register.
    fn read(&self, lane: usize, place: usize) -> Result<u8, BankFault>
        ensures { result ≡ told (lanes self.now) lane place };

    /// Puts the symbol with this byte into one register.
    fn set(&mut self, lane: usize, place: usize, byte: u8) -> Result<(), BankFault>
        ensures answer { answered result ≡ answer_if (place_there (lanes self.old) lane place) }
        ensures after { lanes self.new ≡ placed (lanes self.old) lane place byte };

    ghost shape: { (s : Self) → Shaped (lanes s) };
}

/// A refused call leaves all as it was, and a lane that takes symbols after all were cleared holds their remainder: a theorem, with
/// nothing to compute.
#[tactic(auto, using(crate::proofs::Taken::banks))]
pub fn banks_stand()
    ensures { Banks }
{}
