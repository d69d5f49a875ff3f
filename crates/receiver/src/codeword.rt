//! The codeword layer: one word is corrected.
ghost use Rattle.std.specs.Prelude.{◌≡◌, [], map, slice_index_or};
ghost use Rattle.power_form.specs.PowerForm.{power_ops};
ghost use Rattle.dual_form.specs.DualForm.{symbol, dual_of_power, dual_ops};
ghost use Rattle.code.specs.Code.{telemetry};
ghost use Rattle.generator.specs.Claims.{Leaves};
ghost use Rattle.bank.specs.Lanes.{all_stepped};
ghost use Rattle.correction.specs.Correcting.{Corrected};
ghost use Rattle.receiver.specs.Words.{word_of, power_word_of};

use bank::{Bank, REGISTERS, read_all, take_all};
use code::SYMBOLS;
use correction::{NoCodeword, correct, is_zero};
use dividers::TableDivider;
use dual_form::Dual;
use field::Field;
use power_form::Power;
use std::array;

/// The message symbols of a codeword.
pub(crate) const MESSAGE_SYMBOLS: usize = SYMBOLS - REGISTERS;

/// What the first lane of a bank holds once it took the symbols of a message.
fn divide<B: Bank>(bank: &mut B, message: &[u8]) -> [u8; REGISTERS]
    ensures { map symbol result ≡ all_stepped (slice_index_or (B.Bank.lanes bank.old) 0 []) message.now }
{
    let _ = take_all(bank, 0, message);
    read_all(bank, 0).unwrap()
}

/// The remainder of a word by the generator: the divider's registers and the check symbols added.
fn remainder_of(bytes: &[u8; SYMBOLS]) -> [Power; REGISTERS]
    ensures { Leaves power_ops telemetry (power_word_of bytes.now) result }
{
    let registers = divide(&mut TableDivider::new(), &bytes[..MESSAGE_SYMBOLS]);
    array::from_fn(|i| {
        let check = Dual::new(bytes[SYMBOLS - 1 - i]);
        Power::from(Dual::new(registers[i]).plus(check))
    })
}

/// The word of bytes in power form, C_0 first.
fn power_word(bytes: &[u8; SYMBOLS]) -> [Power; SYMBOLS]
    ensures { result ≡ power_word_of bytes.now }
{
    let mut word = bytes.map(|byte| Power::from(Dual::new(byte)));
    word.reverse();
    word
}

/// Writes a word in power form as bytes, C_254 first.
fn write_word(bytes: &mut [u8; SYMBOLS], word: &[Power; SYMBOLS])
    ensures { word_of bytes.new ≡ map dual_of_power word.now }
{
    *bytes = word.map(|symbol| Dual::from(symbol).byte);
    bytes.reverse();
}

/// Corrects a word, its bytes C_254 first; how many of its symbols were wrong.
pub(crate) fn correct_word(bytes: &mut [u8; SYMBOLS]) -> Result<usize, NoCodeword>
    ensures { Corrected dual_ops telemetry (word_of bytes.old) (word_of bytes.new) result }
{
    let remainder = remainder_of(bytes);
    if is_zero(&remainder) {
        return Ok(0);
    }
    let mut word = power_word(bytes);
    let wrong = correct(&mut word, &remainder)?;
    write_word(bytes, &word);
    Ok(wrong)
}
