//! Prints all 256 elements of the field, a line each: the exponent, the byte in power form, the dual byte and the trace.
#![tactic(auto)]

use dual_form::{Dual, trace};
use exponent_form::{Exponent, Logarithm};
use power_form::Power;
use std::io::{BufWriter, Write};

/// The element's byte in power form, its dual byte and its trace.
fn bytes_of(element: Logarithm) -> (u8, u8, u8) {
    let power = Power::from(element);
    (power.bits, Dual::from(element).byte, trace(power))
}

fn main(rt: HostRuntime) -> anyhow::Result<()> {
    let mut output = BufWriter::new(rt.alloc(), rt.stdout())?;
    let (power, dual, trace) = bytes_of(Logarithm::Star);
    writeln!(output, "* {power:02x} {dual:02x} {trace}")?;
    for exponent in (0..u8::MAX).filter_map(Exponent::new) {
        let (power, dual, trace) = bytes_of(Logarithm::Of(exponent));
        writeln!(output, "{} {power:02x} {dual:02x} {trace}", exponent.number)?;
    }
    output.flush()?;
    Ok(())
}
