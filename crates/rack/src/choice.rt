//! One of two banks.
ghost use Rattle.rack.specs.Choices.{choice_lanes, choice_shaped};

use bank::{Bank, BankFault};

/// One of two banks.
#[derive(Drop)]
pub enum Choice<A: Bank, B: Bank> {
    /// The one.
    First(A),
    /// The other.
    Second(B),
}

impl<A: Bank, B: Bank> Bank for Choice<A, B> {
    ghost lanes = { choice_lanes A.Bank.lanes B.Bank.lanes };

    ghost shape = { choice_shaped A.Bank.lanes B.Bank.lanes A.Bank.shape B.Bank.shape };

    fn count(&self) -> usize {
        match self {
            Choice::First(bank) => bank.count(),
            Choice::Second(bank) => bank.count(),
        }
    }

    fn clear(&mut self) {
        match self {
            Choice::First(bank) => bank.clear(),
            Choice::Second(bank) => bank.clear(),
        }
    }

    fn take(&mut self, lane: usize, byte: u8) -> Result<(), BankFault> {
        match self {
            Choice::First(bank) => bank.take(lane, byte),
            Choice::Second(bank) => bank.take(lane, byte),
        }
    }

    fn read(&self, lane: usize, place: usize) -> Result<u8, BankFault> {
        match self {
            Choice::First(bank) => bank.read(lane, place),
            Choice::Second(bank) => bank.read(lane, place),
        }
    }

    fn set(&mut self, lane: usize, place: usize, byte: u8) -> Result<(), BankFault> {
        match self {
            Choice::First(bank) => bank.set(lane, place, byte),
            Choice::Second(bank) => bank.set(lane, place, byte),
        }
    }
}
