//! All registers of a lane as text.
ghost use Rattle.std.specs.Prelude.{◌≡◌, IfOk, string_bytes};
ghost use Rattle.bench.specs.Lines.{regs_line as regs_line_of};

use crate::calls::refusal_line;
use bank::{Bank, read_all};
use std::alloc::{AllocError, Global};
use tokens::write_byte;

/// The line with all registers of a lane, R_31 first.
#[tactic(auto, using(crate::proofs::Sending::spelled_none, crate::proofs::Sending::spelled_last, crate::proofs::Sending::sent_read))]
pub fn regs_line<B: Bank>(heap: Global, bank: &B, lane: usize) -> Result<String, AllocError>
    ensures { IfOk result (λ s. string_bytes s ≡ regs_line_of (B.Bank.lanes bank.now) lane) }
{
    match read_all(bank, lane) {
        Ok(bytes) => {
            let mut text = String::from_str(heap, "regs = ")?;
            for byte in bytes.iter().rev() {
                write_byte(&mut text, *byte)?;
            }
            Ok(text)
        }
        Err(fault) => refusal_line(heap, "regs", fault),
    }
}
