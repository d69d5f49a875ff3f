//! Why a text is refused.
ghost use Rattle.std.specs.Prelude.{◌≡◌, Some};
ghost use Rattle.tokens.specs.declared.fault.Fault.TheVariants.{Memory};
ghost use Rattle.tokens.specs.Faults.{shown_fault};

use std::alloc::{AllocError, AllocFailed};
use std::fmt;

/// Columns count bytes from 0.
#[derive(Clone, Copy, Debug, PartialEq, Eq)]
pub enum Fault {
    Memory,
    /// The words are those of no request.
    Shape,
    /// The text does not begin with the key.
    Key,
    /// The byte at this column is no digit.
    Digit { column: usize },
    /// A byte has fewer than two digits.
    Half,
    /// The number is empty, has a zero in front, or is out of range.
    Number,
    /// The line is too long.
    Long,
    /// The line is no UTF-8 from this column on.
    Text { column: usize },
}

// Written out, since clauses read `from_gives` here and `output` below.
impl From<AllocError> for Fault {
    ghost from_gives = { λ _ r. r ≡ Memory };

    fn from(_e: AllocError) -> Fault {
        Fault::Memory
    }
}

impl<T: Drop> From<AllocFailed<T>> for Fault {
    ghost from_gives = { λ _ r. r ≡ Memory };

    fn from(_e: AllocFailed<T>) -> Fault {
        Fault::Memory
    }
}

impl fmt::Display for Fault {
    ghost output = { λ f. Some (shown_fault f) };

    fn fmt<W: fmt::Write>(&self, f: &mut fmt::Formatter<W>) -> fmt::Result {
        match self {
            Fault::Memory => write!(f, "no memory"),
            Fault::Shape => write!(f, "no such request"),
            Fault::Key => write!(f, "another key is expected"),
            Fault::Digit { column } => write!(f, "no digit at column {column}"),
            Fault::Half => write!(f, "half a byte at the end"),
            Fault::Number => write!(f, "no number in range"),
            Fault::Long => write!(f, "the line is too long"),
            Fault::Text { column } => write!(f, "no text from column {column} on"),
        }
    }
}
