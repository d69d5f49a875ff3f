//! A bank with a copy of its registers beside it.
ghost use Rattle.std.specs.Prelude.{◌≡◌, ◌<◌, map, length, slice_set};
ghost use Rattle.dual_form.specs.DualForm.{symbol};
ghost use Rattle.bank.specs.Lanes.{answer as answered, answer_if, lane_there, place_there, all_cleared, fed, placed, held};
ghost use Rattle.bank.specs.Kept.{kept};
ghost use Rattle.std.proofs.Common.{rules};

use crate::{Bank, BankFault, LANES, Pair, REGISTERS, read_all};

/// A bank with a copy of its registers beside it.
#[derive(Drop)]
pub struct Holder<B: Bank> {
    bank: B,
    // Rows for the most lanes that there are: how many count is the bank's own number of lanes, which a length kept with them would say again.
    copy: [[u8; REGISTERS]; LANES],
}

/// Puts the registers of one lane back.
fn restore_lane<B: Bank>(bank: &mut B, lane: usize, row: &[u8; REGISTERS])
    requires { lane < length (B.Bank.lanes bank.old) }
    ensures { B.Bank.lanes bank.new ≡ slice_set (B.Bank.lanes bank.old) lane (map symbol row.now) }
{
    for (place, byte) in row.iter().enumerate() {
        let _ = bank.set(lane, place, *byte);
    }
}

/// Copies the registers of every lane.
// a function beside `hold`: no proof covers a part of an array field that is lent as a slice
fn hold_lanes<B: Bank>(bank: &B, copy: &mut [[u8; REGISTERS]; LANES])
    ensures { held (B.Bank.lanes bank.now) copy.new ≡ B.Bank.lanes bank.now }
{
    let rows = &mut copy[..bank.count()];
    for (lane, row) in rows.iter_mut().enumerate() {
        *row = read_all(bank, lane).unwrap();
    }
}

impl<B: Bank> Holder<B> {
    /// The bank with a copy that is zero.
    #[tactic(auto, using(crate::proofs::Held::zero_held))]
    pub fn new(bank: B) -> Self
        ensures bank { result.bank ≡ bank }
        ensures copy { kept B.Bank.lanes result ≡ all_cleared (B.Bank.lanes result.bank) }
    {
        Holder {
            bank,
            copy: [[0; REGISTERS]; LANES],
        }
    }

    /// Makes the copy equal to the registers.
    pub fn hold(&mut self)
        ensures lanes { B.Bank.lanes self.new.bank ≡ B.Bank.lanes self.old.bank }
        ensures copy { kept B.Bank.lanes self.new ≡ B.Bank.lanes self.old.bank }
    {
        hold_lanes(&self.bank, &mut self.copy);
    }

    /// Makes the registers equal to the copy.
    pub fn restore(&mut self)
        ensures lanes { B.Bank.lanes self.new.bank ≡ kept B.Bank.lanes self.old }
        ensures copy { kept B.Bank.lanes self.new ≡ kept B.Bank.lanes self.old }
    {
        let count = self.bank.count();
        for (lane, row) in self.copy[..count].iter().enumerate() {
            restore_lane(&mut self.bank, lane, row);
        }
    }
}

impl<B: Bank> Bank for Holder<B> {
    ghost lanes = { λ h. B.Bank.lanes h.bank };

    ghost shape = { Prim.search rules };

    fn count(&self) -> usize {
        self.bank.count()
    }

    #[tactic(auto, using(crate::proofs::Held::held_cleared))]
    fn clear(&mut self)
        ensures lanes { B.Bank.lanes self.new.bank ≡ all_cleared (B.Bank.lanes self.old.bank) }
        ensures copy { kept B.Bank.lanes self.new ≡ kept B.Bank.lanes self.old }
    {
        self.bank.clear();
    }

    #[tactic(auto, using(crate::proofs::Held::held_set))]
    fn take(&mut self, lane: usize, byte: u8) -> Result<(), BankFault>
        ensures answer { answered result ≡ answer_if (lane_there (B.Bank.lanes self.old.bank) lane) }
        ensures after { B.Bank.lanes self.new.bank ≡ fed (B.Bank.lanes self.old.bank) lane byte }
        ensures copy { kept B.Bank.lanes self.new ≡ kept B.Bank.lanes self.old }
    {
        self.bank.take(lane, byte)
    }

    fn read(&self, lane: usize, place: usize) -> Result<u8, BankFault> {
        self.bank.read(lane, place)
    }

    #[tactic(auto, using(crate::proofs::Held::held_set))]
    fn set(&mut self, lane: usize, place: usize, byte: u8) -> Result<(), BankFault>
        ensures answer { answered result ≡ answer_if (place_there (B.Bank.lanes self.old.bank) lane place) }
        ensures after { B.Bank.lanes self.new.bank ≡ placed (B.Bank.lanes self.old.bank) lane place byte }
        ensures copy { kept B.Bank.lanes self.new ≡ kept B.Bank.lanes self.old }
    {
        self.bank.set(lane, place, byte)
    }
}

/// Three banks side by side, with a copy of their registers.
pub fn three_held<B: Bank>(first: B, second: B, third: B) -> Holder<Pair<Pair<B, B>, B>>
    ensures first { result.bank.left.left ≡ first }
    ensures second { result.bank.left.right ≡ second }
    ensures third { result.bank.right ≡ third }
{
    Holder::new(Pair::new(Pair::new(first, second), third))
}
