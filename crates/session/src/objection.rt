//! Why a call is not carried out.
ghost use Rattle.std.specs.Prelude.{Some};
ghost use Rattle.session.specs.Objections.{shown_objection};

use std::fmt;

/// Why a call is not carried out.
#[derive(Clone, Copy, Debug, PartialEq, Eq)]
pub enum Objection {
    /// The text is that of no bank.
    NoSuchBank,
    /// A bank is open already.
    BankIsOpen,
    /// No bank is open.
    NoBankIsOpen,
    /// The bank is no holder, so there is no copy.
    NoCopy,
}

// Written out, since clauses read `output`.
impl fmt::Display for Objection {
    ghost output = { λ o. Some (shown_objection o) };

    fn fmt<W: fmt::Write>(&self, f: &mut fmt::Formatter<W>) -> fmt::Result {
        match self {
            Objection::NoSuchBank => write!(f, "no such bank"),
            Objection::BankIsOpen => write!(f, "a bank is open"),
            Objection::NoBankIsOpen => write!(f, "no bank is open"),
            Objection::NoCopy => write!(f, "there is no copy"),
        }
    }
}
