//! Calls on a bank with a copy beside it, and the lines that answer them.
ghost use Rattle.std.specs.Prelude.{◌≡◌, ◌++◌, IfOk, string_bytes, codes, decimal};
ghost use Rattle.bank.specs.Kept.{kept};
ghost use Rattle.bank.specs.Lanes.{answer as answered, number, all_cleared, fed, placed};
ghost use Rattle.bench.specs.Lines.{bank_line as bank_line_of, take_line as take_line_of, set_line as set_line_of, read_line as read_line_of};

use bank::{Bank, BankFault, Holder};
use std::alloc::{AllocError, Global};

/// The line of a word and the number of an answer: 0, or that of a refusal.
fn answer_line(
    heap: Global,
    word: &str,
    answer: Result<(), BankFault>,
) -> Result<String, AllocError>
    ensures { IfOk result (λ s. string_bytes s ≡ word.now ++ (codes " = " ++ decimal (answered answer))) }
{
    let number = answer.err().map_or(0, BankFault::number);
    format!(in heap; "{word} = {number}")
}

/// The line of a word and a refusal, with nothing told.
pub(crate) fn refusal_line(heap: Global, word: &str, fault: BankFault) -> Result<String, AllocError>
    ensures { IfOk result (λ s. string_bytes s ≡ word.now ++ (codes " = " ++ (decimal (number fault) ++ codes " -"))) }
{
    let number = fault.number();
    format!(in heap; "{word} = {number} -")
}

/// The line that tells of a bank with this name.
pub fn bank_line<B: Bank>(heap: Global, id: &str, bank: &B) -> Result<String, AllocError>
    ensures { IfOk result (λ s. string_bytes s ≡ bank_line_of id.now (B.Bank.lanes bank.now)) }
{
    let lanes = bank.count();
    // The 32 is said again: with `{REGISTERS}` in its place, the proof of the text did not close.
    format!(in heap; "bank {id} = {lanes} 32")
}

/// Takes the symbol with this byte into a lane.
pub fn take_line<B: Bank>(
    heap: Global,
    holder: &mut Holder<B>,
    lane: usize,
    byte: u8,
) -> Result<String, AllocError>
    ensures line { IfOk result (λ s. string_bytes s ≡ take_line_of (B.Bank.lanes holder.old.bank) lane) }
    ensures lanes { B.Bank.lanes holder.new.bank ≡ fed (B.Bank.lanes holder.old.bank) lane byte }
    ensures copy { kept B.Bank.lanes holder.new ≡ kept B.Bank.lanes holder.old }
{
    answer_line(heap, "take", holder.take(lane, byte))
}

/// Puts the symbol with this byte into one register.
pub fn set_line<B: Bank>(
    heap: Global,
    holder: &mut Holder<B>,
    lane: usize,
    place: usize,
    byte: u8,
) -> Result<String, AllocError>
    ensures line { IfOk result (λ s. string_bytes s ≡ set_line_of (B.Bank.lanes holder.old.bank) lane place) }
    ensures lanes { B.Bank.lanes holder.new.bank ≡ placed (B.Bank.lanes holder.old.bank) lane place byte }
    ensures copy { kept B.Bank.lanes holder.new ≡ kept B.Bank.lanes holder.old }
{
    answer_line(heap, "set", holder.set(lane, place, byte))
}

/// Reads one register.
#[tactic(auto, using(crate::proofs::Hex::byte_shown))]
pub fn read_line<B: Bank>(
    heap: Global,
    bank: &B,
    lane: usize,
    place: usize,
) -> Result<String, AllocError>
    ensures { IfOk result (λ s. string_bytes s ≡ read_line_of (B.Bank.lanes bank.now) lane place) }
{
    match bank.read(lane, place) {
        Ok(byte) => format!(in heap; "read = 0 {byte:02x}"),
        Err(fault) => refusal_line(heap, "read", fault),
    }
}

/// Makes every register zero.
// This and the two below differ in the method that they call: with it as a closure, each caller would state what the method does.
pub fn clear_line<B: Bank>(heap: Global, holder: &mut Holder<B>) -> Result<String, AllocError>
    ensures line { IfOk result (λ s. string_bytes s ≡ codes "clear") }
    ensures lanes { B.Bank.lanes holder.new.bank ≡ all_cleared (B.Bank.lanes holder.old.bank) }
    ensures copy { kept B.Bank.lanes holder.new ≡ kept B.Bank.lanes holder.old }
{
    holder.clear();
    String::from_str(heap, "clear")
}

/// Makes the copy equal to the registers.
pub fn hold_line<B: Bank>(heap: Global, holder: &mut Holder<B>) -> Result<String, AllocError>
    ensures line { IfOk result (λ s. string_bytes s ≡ codes "hold") }
    ensures lanes { B.Bank.lanes holder.new.bank ≡ B.Bank.lanes holder.old.bank }
    ensures copy { kept B.Bank.lanes holder.new ≡ B.Bank.lanes holder.old.bank }
{
    holder.hold();
    String::from_str(heap, "hold")
}

/// Makes the registers equal to the copy.
pub fn restore_line<B: Bank>(heap: Global, holder: &mut Holder<B>) -> Result<String, AllocError>
    ensures line { IfOk result (λ s. string_bytes s ≡ codes "restore") }
    ensures lanes { B.Bank.lanes holder.new.bank ≡ kept B.Bank.lanes holder.old }
    ensures copy { kept B.Bank.lanes holder.new ≡ kept B.Bank.lanes holder.old }
{
    holder.restore();
    String::from_str(heap, "restore")
}
