//! Reads requests from standard input, one a line, and prints the answer to each.
#![tactic(auto)]

use service::{Requests, serve};
use std::io::{BufReader, BufWriter};

fn main(rt: HostRuntime) -> anyhow::Result<()> {
    let heap = rt.alloc();
    let mut input = BufReader::new(heap, rt.stdin())?;
    let mut output = BufWriter::new(heap, rt.stdout())?;
    serve(&mut Requests, heap, &mut input, &mut output)
}
