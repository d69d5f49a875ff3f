//! Products with the coefficients of the generator in dual form, bit by bit.
ghost use Rattle.std.specs.Prelude.{◌≡◌, ℕ, ◌<◌, true, slice_index};
ghost use Rattle.power_form.specs.Arithmetic.{product};
ghost use Rattle.dual_form.specs.Dual.{to_dual};
ghost use Rattle.dividers.specs.Bits.{incoming, pushed_bit, beta_step, masks_right};
ghost use Rattle.dividers.specs.Coefficients.{coefficient_byte};
ghost use Rattle.dividers.specs.Forms.{power_byte};

use bank::REGISTERS;
use dual_form::parity;

/// The number of bits in a symbol.
const BITS: usize = 8;

/// The mask of each coefficient: its bit at the place of zj is the trace of ℓj·G_i.
const MASKS: [u8; REGISTERS] = [
    0x80, 0x6a, 0x30, 0xac, // G_3: z0, z2, z4 and z5
    0xb1, 0xe3, 0xc6, 0x68, 0xd3, 0xbc, 0xc9, 0x08, 0xff, 0xac, 0xee, 0xd5, 0x62, 0xd5, 0xee, 0xac,
    0xff, 0x08, 0xc9, 0xbc, 0xd3, 0x68, 0xc6, 0xe3, 0xb1, 0xac, 0x30, 0x6a,
];

/// The mask of β^8.
const INCOMING: u8 = 0xd1;

/// One bit more behind those that a product has: z0, the most significant, comes first.
fn push_bit(product: u8, z: u8, mask: u8) -> u8
    ensures { result ≡ pushed_bit product z mask }
{
    product % 128 * 2 + parity(z & mask)
}

/// The dual byte of β·z: the bits move up one place, and the trace of β^8·z comes in.
#[tactic(auto, using(crate::proofs::Serial::incoming_is))]
fn beta_times(z: u8) -> u8
    ensures { result ≡ beta_step z }
{
    push_bit(z, z, INCOMING)
}

/// Forms one bit more of every product with z.
fn push_bits(products: &mut [u8; REGISTERS], masks: &[u8; REGISTERS], z: u8)
    ensures { (k : ℕ) → k < 32 → slice_index products.new k ≡ pushed_bit (slice_index products.old k) z (slice_index masks.now k) }
{
    // By `zip(masks)` in place of the index, nothing would be known of the products afterwards.
    for (place, product) in products.iter_mut().enumerate() {
        *product = push_bit(*product, z, masks[place]);
    }
}

/// The products of f with the coefficients that have these masks.
fn products_in(masks: &[u8; REGISTERS], f: u8) -> [u8; REGISTERS]
    requires rule { masks_right masks.now ≡ true }
    ensures { (k : ℕ) → k < 32 → slice_index result k ≡ to_dual (product (power_byte f) (coefficient_byte k)) }
{
    let mut products = [0; REGISTERS];
    let mut z = f;
    for _bit in 0..BITS {
        push_bits(&mut products, masks, z);
        z = beta_times(z);
    }
    products
}

/// The products f·G_0 to f·G_31, in dual form.
pub(crate) fn products(f: u8) -> [u8; REGISTERS]
    ensures { (k : ℕ) → k < 32 → slice_index result k ≡ to_dual (product (power_byte f) (coefficient_byte k)) }
{
    products_in(&MASKS, f)
}
