//! Registers that move up one place while a row is added.
ghost use Rattle.std.specs.Prelude.{◌≡◌, ℕ, ◌<◌, ◌∷◌, bit_xor, slice_index};

use bank::REGISTERS;
use std::mem;

/// Adds a row to the registers as they move up: each becomes the one below it plus the row's byte at its place, and zero stands below
/// the first.
pub(crate) fn shift_in(registers: &mut [u8; REGISTERS], row: &[u8; REGISTERS])
    ensures { (k : ℕ) → k < 32 → slice_index registers.new k ≡ bit_xor (slice_index (0 ∷ registers.old) k) (slice_index row.now k) }
{
    let mut below = 0;
    // By `zip(row)` in place of the index, nothing would be known of the registers afterwards.
    for (place, register) in registers.iter_mut().enumerate() {
        below = mem::replace(register, below ^ row[place]);
    }
}
