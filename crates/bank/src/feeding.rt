//! Many symbols taken into one lane, all registers of one read, and two banks fed alike.
ghost use Rattle.std.specs.Prelude.{◌≡◌};
ghost use Rattle.bank.specs.Lanes.{answer as answered, answer_if, lane_there, all_fed, told, told_all};

use crate::{Bank, BankFault, REGISTERS};

/// Takes the symbols with these bytes into a lane, in their order.
pub fn take_all<B: Bank>(bank: &mut B, lane: usize, bytes: &[u8]) -> Result<(), BankFault>
    ensures answer { answered result ≡ answer_if (lane_there (B.Bank.lanes bank.old) lane) }
    ensures after { B.Bank.lanes bank.new ≡ all_fed (B.Bank.lanes bank.old) lane bytes.now }
{
    if lane >= bank.count() {
        return Err(BankFault::NoSuchRegister);
    }
    for byte in bytes {
        bank.take(lane, *byte)?;
    }
    Ok(())
}

/// The bytes of all registers of a lane, R_0 first.
pub fn read_all<B: Bank>(bank: &B, lane: usize) -> Result<[u8; REGISTERS], BankFault>
    ensures { result ≡ told_all (B.Bank.lanes bank.now) lane }
{
    let mut bytes = [0; REGISTERS];
    for (place, byte) in bytes.iter_mut().enumerate() {
        *byte = bank.read(lane, place)?;
    }
    Ok(bytes)
}

/// Takes the same symbols into the same lane of two banks, and reads the same register of both: banks of equal lanes read alike and
/// have equal lanes again.
pub fn read_alike<A: Bank, B: Bank>(
    one: &mut A,
    other: &mut B,
    lane: usize,
    bytes: &[u8],
    place: usize,
) -> (Result<u8, BankFault>, Result<u8, BankFault>)
    ensures first { result.0 ≡ told (all_fed (A.Bank.lanes one.old) lane bytes.now) lane place }
    ensures second { result.1 ≡ told (all_fed (B.Bank.lanes other.old) lane bytes.now) lane place }
    ensures alike { A.Bank.lanes one.old ≡ B.Bank.lanes other.old → result.0 ≡ result.1 }
    ensures equal { A.Bank.lanes one.old ≡ B.Bank.lanes other.old → A.Bank.lanes one.new ≡ B.Bank.lanes other.new }
{
    let _ = take_all(one, lane, bytes);
    let _ = take_all(other, lane, bytes);
    (one.read(lane, place), other.read(lane, place))
}
