//! The table divider: registers in power form, to which a row of products is added.
ghost use Rattle.dividers.specs.Forms.{in_power_form};
ghost use Rattle.dividers.specs.PowerLane.{power_sums, power_zero};

use crate::form::Form;
use crate::one_lane::Divider;
use crate::registers::shift_in;
use crate::rows::row;
use bank::REGISTERS;
use dual_form::Dual;
use power_form::Power;

/// Registers in power form, with the products from a table.
#[derive(Drop)]
pub struct PowerForm;

/// One lane, whose registers are in power form.
pub type TableDivider = Divider<PowerForm>;

impl Form for PowerForm {
    ghost meant = { in_power_form };

    ghost sums = { power_sums };

    ghost zero = { power_zero };

    #[tactic(auto, using(crate::specs::PowerLane::power_symbol))]
    fn of_dual(byte: u8) -> u8 {
        Power::from(Dual::new(byte)).bits
    }

    fn to_dual(byte: u8) -> u8 {
        Dual::from(Power::new(byte)).byte
    }

    fn move_up(registers: &mut [u8; REGISTERS], f: u8) {
        shift_in(registers, row(f));
    }
}
