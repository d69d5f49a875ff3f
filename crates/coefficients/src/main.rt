//! Prints the exponents of the generator's coefficients in one line, that of the lowest power first.
#![tactic(auto)]

use generator::coefficients_line;

fn main(rt: HostRuntime) -> anyhow::Result<()> {
    let line = coefficients_line(rt.alloc())?;
    rt.print(&line)?;
    Ok(())
}
