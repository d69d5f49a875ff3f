//! Dividers, each a bank of one lane, over the form of their registers: by a table of products, in power form, and bit by bit, in dual
//! form.
#![tactic(auto)]

mod form;
mod one_lane;
mod products;
mod registers;
mod rows;
mod serial_divider;
mod table_divider;

ghost use Rattle.std.specs.Prelude.{◌≡◌, [], ◌∷◌};
ghost use Rattle.bank.specs.Lanes.{zeros, all_fed, told};

use bank::{Bank, BankFault, read_alike};
pub use form::Form;
pub use one_lane::Divider;
pub use serial_divider::{DualForm, SerialDivider};
pub use table_divider::{PowerForm, TableDivider};

/// What the two dividers read in a register once both, zero at first, took the symbols with these bytes: the same.
pub fn read_both(bytes: &[u8], place: usize) -> (Result<u8, BankFault>, Result<u8, BankFault>)
    ensures table { result.0 ≡ told (all_fed (zeros ∷ []) 0 bytes.now) 0 place }
    ensures serial { result.1 ≡ told (all_fed (zeros ∷ []) 0 bytes.now) 0 place }
    ensures alike { result.0 ≡ result.1 }
{
    let mut table = TableDivider::new();
    let mut serial = SerialDivider::new();
    read_alike(&mut table, &mut serial, 0, bytes, place)
}

#[cfg(test)]
mod tests {
    use super::*;
    use bank::{Bank, Holder, Pair};

    // The symbol 7b behind 222 zeros, through both dividers side by side under a holder, and back again.
    #[test]
    fn one_symbol_behind_zeros(rt: HostRuntime) {
        let mut bank = Holder::new(Pair::new(TableDivider::new(), SerialDivider::new()));
        for lane in 0..2 {
            for _ in 0..222 {
                assert!(rt; bank.take(lane, 0).is_ok());
            }
        }
        bank.hold();
        for lane in 0..2 {
            assert!(rt; bank.take(lane, 0x7b).is_ok());
            assert!(rt; bank.read(lane, 31).unwrap_or(0) == 0x47);
            assert!(rt; bank.read(lane, 16).unwrap_or(0) == 0xfe);
            assert!(rt; bank.read(lane, 0).unwrap_or(0) == 0x7b);
        }
        assert!(rt; bank.take(2, 0).is_err());
        assert!(rt; bank.read(0, 32).is_err());
        bank.restore();
        assert!(rt; bank.read(1, 31).unwrap_or(1) == 0);
    }
}
