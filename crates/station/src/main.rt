//! Reads requests from standard input, one a line, and prints the answer to each.
#![tactic(auto)]

use counter::Desk;
use service::serve;
use std::io::{BufReader, BufWriter};

fn main(rt: HostRuntime) -> anyhow::Result<()> {
    let heap = rt.alloc();
    let mut input = BufReader::new(heap, rt.stdin())?;
    let mut output = BufWriter::new(heap, rt.stdout())?;
    serve(&mut Desk::new(), heap, &mut input, &mut output)
}
