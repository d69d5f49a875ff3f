//! Why a bank refuses.
ghost use Rattle.std.specs.Prelude.{◌≡◌};
ghost use Rattle.bank.specs.Lanes.{number as number_of};

/// The refusal of a bank.
#[derive(Clone, Copy, Debug, PartialEq, Eq)]
pub enum BankFault {
    /// There is no such lane, or no such place in it.
    NoSuchRegister,
}

impl BankFault {
    /// The number of the refusal.
    pub fn number(self) -> u8
        ensures { result ≡ number_of self }
    {
        match self {
            BankFault::NoSuchRegister => 2,
        }
    }
}
