//! Tables of 256 bytes whose rule is one test, computed over the whole table.
#![tactic(auto)]

ghost use Rattle.std.specs.Prelude.{◌≡◌, true, ℕ, get_or};
ghost use Rattle.table.specs.Computed.{tabulates};

/// What stands at k; in a table that lists a function's values, the function's value at k.
#[tactic(auto, using(crate::proofs::Tests::tabulated))]
pub fn entry(table: &[u8; 256], k: u8) -> u8
    ensures read { result ≡ get_or table.now k 0 }
    ensures listed { (f : ℕ → ℕ) → tabulates 256 f table.now ≡ true → result ≡ f k }
{
    table[k as usize]
}
