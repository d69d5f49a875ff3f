//! The call that a line is.
ghost use Rattle.tokens.specs.Reads.{Reads};
ghost use Rattle.calls.specs.Lines.{written_call, NoCall, NotBare};

use crate::call::Call;
use crate::words::{bank, read, regs, set, take};
use std::alloc::Global;
use tokens::{Fault, Piece, word};

/// The call that is a verb with more behind it.
fn worded(heap: Global, line: &str) -> Result<Call, Fault>
    requires { NotBare line.now }
    ensures { Reads written_call NoCall line.now result }
{
    let (verb, rest) = word(Piece {
        text: line,
        column: 0,
    })?;
    match verb.text {
        "bank" => bank(heap, rest),
        "take" => take(rest),
        "read" => read(rest),
        "set" => set(rest),
        "regs" => regs(rest),
        _ => Err(Fault::Shape),
    }
}

/// The call that the line is written as.
pub fn read_call(heap: Global, line: &str) -> Result<Call, Fault>
    ensures { Reads written_call NoCall line.now result }
{
    match line {
        "clear" => Ok(Call::Clear),
        "hold" => Ok(Call::Hold),
        "restore" => Ok(Call::Restore),
        "end" => Ok(Call::End),
        _ => worded(heap, line),
    }
}
