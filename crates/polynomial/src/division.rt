//! The degree of a polynomial, and division in place.
ghost use Rattle.std.specs.Prelude.{◌≡◌, ℕ, ◌<◌, length, IfSome};
ghost use Rattle.polynomial.specs.Coefficients.{coeff, shift};
ghost use Rattle.polynomial.specs.Division.{HasDegree, Divided};

use field::Field;

/// The highest power whose coefficient is not zero; none of the zero polynomial.
pub fn degree<F: Field>(coefficients: &[F]) -> Option<usize>
    ensures degree { HasDegree F.ops coefficients.now result }
    ensures inside { IfSome result (λ m. m < length coefficients.now) }
{
    coefficients.iter().rposition(|c| *c != F::zero())
}

/// Adds f·x^k times `by` to the buffer; what lies beyond the buffer is lost.
pub fn add_multiple<F: Field>(buffer: &mut [F], k: usize, f: F, by: &[F])
    ensures long { length buffer.new ≡ length buffer.old }
    ensures added { (i : ℕ) → i < length buffer.old → coeff F.ops buffer.new i ≡ F.ops.sum (coeff F.ops buffer.old i) (F.ops.product f (coeff F.ops (shift F.ops k by.now) i)) }
{
    // By `iter_mut().skip(k).zip(by)` nothing would be known of the buffer afterwards; the range k.. zipped with `by` is proved too, and makes
    // divisions slower by a fifth.
    let room = buffer.len().saturating_sub(k);
    let within = &by[..by.len().min(room)];
    for (j, y) in within.iter().enumerate() {
        buffer[k + j] = buffer[k + j].plus(f.times(*y));
    }
}

/// Leaves in the buffer the remainder of its division by `by`. None, with the buffer as it was, where `by` is zero.
pub fn divide<F: Field>(buffer: &mut [F], by: &[F]) -> Option<()>
    ensures { Divided F.ops buffer.old by.now buffer.new result }
{
    let m = degree(by)?;
    let reciprocal = by[m].reciprocal()?;
    // Zeros that `by` has on top would add nothing, in every turn.
    let divisor = &by[..m + 1];
    let turns = buffer.len().saturating_sub(m);
    // k is a power of x, and no walk over the buffer: each turn changes a stretch of it.
    for k in (0..turns).rev() {
        let f = buffer[k + m].times(reciprocal);
        add_multiple(buffer, k, f, divisor);
    }
    Some(())
}
