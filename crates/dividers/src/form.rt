//! The forms in which dividers keep their registers.
ghost use Rattle.std.specs.Prelude.{◌≡◌, ℕ, map, bit_xor};
ghost use Rattle.dual_form.specs.DualForm.{symbol, dual_ops};
ghost use Rattle.dual_form.specs.declared.element.Dual.{Dual as Symbol};
ghost use Rattle.dividers.specs.Forms.{moved_up};

use bank::REGISTERS;

/// The form in which a divider keeps the bytes of its registers, and its way to the products with the generator.
pub trait Form {
    // the symbol whose byte in this form is n
    ghost meant: { ℕ → Symbol };

    /// The byte in this form of the symbol with this dual byte.
    fn of_dual(byte: u8) -> u8
        ensures { meant result ≡ symbol byte };

    /// The dual byte of the symbol with this byte in this form.
    fn to_dual(byte: u8) -> u8
        ensures { result ≡ (meant byte).byte };

    /// Moves the registers up one place, and adds the products of f with the coefficients of the generator.
    fn move_up(registers: &mut [u8; REGISTERS], f: u8)
        ensures { map meant registers.new ≡ moved_up (map meant registers.old) (meant f) };

    // the byte of a sum is the sum of the bytes, and that of zero is 0
    ghost sums: { (x y : ℕ) → meant (bit_xor x y) ≡ dual_ops.sum (meant x) (meant y) };

    ghost zero: { meant 0 ≡ dual_ops.nought };
}
