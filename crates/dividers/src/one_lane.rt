//! A divider: a bank of one lane, whose registers are in one of the forms.
ghost use Rattle.std.specs.Prelude.{◌≡◌, [], ◌∷◌, map, length};
ghost use Rattle.std.proofs.Common.{◌∙◌};
ghost use Rattle.std.proofs.lemmas.List.{length-map};
ghost use Rattle.bank.specs.Lanes.{zeros};
ghost use Rattle.dividers.specs.OneLane.{one_shaped};

use crate::form::Form;
use bank::{Bank, BankFault, REGISTERS};
use std::marker::PhantomData;

/// How many lanes a divider has.
const DIVIDER_LANES: usize = 1;

/// One lane, whose registers have bytes in this form, R_0 first.
#[derive(Drop)]
pub struct Divider<F> {
    registers: [u8; REGISTERS],
    form: PhantomData<F>,
    // the law `shape` is of any value of this type, and learns the length from no other place
    ghost wide: { length registers ≡ 32 },
}

impl<F: Form> Divider<F> {
    /// The divider with all registers zero.
    pub fn new() -> Self
        ensures { map F.Form.meant result.registers ∷ [] ≡ zeros ∷ [] }
    {
        Divider {
            registers: [0; REGISTERS],
            form: PhantomData,
        }
    }
}

impl<F: Form> Bank for Divider<F> {
    ghost lanes = { λ d. map F.Form.meant d.registers ∷ [] };

    ghost shape = { λ s. one_shaped _ (length-map s.registers F.Form.meant ∙ s.wide) };

    fn count(&self) -> usize {
        DIVIDER_LANES
    }

    fn clear(&mut self) {
        self.registers = [0; REGISTERS];
    }

    fn take(&mut self, lane: usize, byte: u8) -> Result<(), BankFault> {
        if lane != 0 {
            return Err(BankFault::NoSuchRegister);
        }
        let feedback = F::of_dual(byte) ^ self.registers[REGISTERS - 1];
        F::move_up(&mut self.registers, feedback);
        Ok(())
    }

    fn read(&self, lane: usize, place: usize) -> Result<u8, BankFault> {
        if lane != 0 || place >= REGISTERS {
            return Err(BankFault::NoSuchRegister);
        }
        Ok(F::to_dual(self.registers[place]))
    }

    fn set(&mut self, lane: usize, place: usize, byte: u8) -> Result<(), BankFault> {
        if lane != 0 || place >= REGISTERS {
            return Err(BankFault::NoSuchRegister);
        }
        self.registers[place] = F::of_dual(byte);
        Ok(())
    }
}
