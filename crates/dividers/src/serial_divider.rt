//! The bit-serial divider: registers in dual form, to which products are added that are formed bit by bit.
ghost use Rattle.dual_form.specs.DualForm.{symbol};
ghost use Rattle.dividers.specs.DualLane.{dual_sums, dual_zero};

use crate::form::Form;
use crate::one_lane::Divider;
use crate::products::products;
use crate::registers::shift_in;
use bank::REGISTERS;

/// Registers in dual form, with products that are formed bit by bit.
#[derive(Drop)]
pub struct DualForm;

/// One lane, whose registers are in dual form.
pub type SerialDivider = Divider<DualForm>;

impl Form for DualForm {
    ghost meant = { symbol };

    ghost sums = { dual_sums };

    ghost zero = { dual_zero };

    fn of_dual(byte: u8) -> u8 {
        byte
    }

    fn to_dual(byte: u8) -> u8 {
        byte
    }

    fn move_up(registers: &mut [u8; REGISTERS], f: u8) {
        shift_in(registers, &products(f));
    }
}
