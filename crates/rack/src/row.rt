//! Banks of one lane in a row.
ghost use Rattle.std.specs.Prelude.{◌≤◌};
ghost use Rattle.arrayvec.specs.ArrayVec.{array_vec_len};
ghost use Rattle.rack.specs.Rows.{row};
ghost use Rattle.rack.specs.RowsLemmas.{row_shaped};

use crate::single::Single;
use arrayvec::ArrayVec;
use bank::{Bank, BankFault, LANES};

/// At least one bank of one lane, and at most 8, in a row: a bank with their lanes.
#[derive(Drop)]
pub struct Row<D> {
    pub(crate) banks: ArrayVec<D, LANES>,
    ghost some: { 1 ≤ array_vec_len banks },
    ghost few: { array_vec_len banks ≤ 8 },
}

impl<D: Single> Bank for Row<D> {
    ghost lanes = { λ r. row D.Bank.lanes r.banks.items };

    ghost shape = { λ r. row_shaped D.Bank.lanes r.banks.items r.some r.few D.Single.single D.Bank.shape };

    #[tactic(auto, using(crate::specs::RowsLemmas::length_row))]
    fn count(&self) -> usize {
        self.banks.len()
    }

    fn clear(&mut self) {
        for bank in self.banks.iter_mut() {
            bank.clear();
        }
    }

    fn take(&mut self, lane: usize, byte: u8) -> Result<(), BankFault> {
        self.banks
            .get_mut(lane)
            .ok_or(BankFault::NoSuchRegister)?
            .take(0, byte)
    }

    fn read(&self, lane: usize, place: usize) -> Result<u8, BankFault> {
        self.banks
            .get(lane)
            .ok_or(BankFault::NoSuchRegister)?
            .read(0, place)
    }

    fn set(&mut self, lane: usize, place: usize, byte: u8) -> Result<(), BankFault> {
        self.banks
            .get_mut(lane)
            .ok_or(BankFault::NoSuchRegister)?
            .set(0, place, byte)
    }
}
