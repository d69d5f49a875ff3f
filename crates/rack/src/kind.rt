//! The kinds of dividers, and a divider of either kind.
ghost use Rattle.std.specs.Prelude.{◌≡◌, [], ◌∷◌};
ghost use Rattle.bank.specs.Lanes.{zeros};
ghost use Rattle.rack.specs.Dividers.{divider_lanes, kind_of};
ghost use Rattle.rack.specs.declared.kind.Kind.TheVariants.{Table};

use crate::choice::Choice;
use dividers::{SerialDivider, TableDivider};

/// The kind of a divider.
#[derive(Clone, Copy, Debug, Default, PartialEq, Eq)]
pub enum Kind {
    /// A table divider.
    #[default]
    Table,
    /// A bit-serial divider.
    Serial,
}

/// A table divider or a bit-serial divider.
pub type Divider = Choice<TableDivider, SerialDivider>;

/// A divider of a kind, with all registers zero.
impl From<Kind> for Divider {
    ghost from_gives = { λ kind d. (divider_lanes d ≡ zeros ∷ []) × (kind_of d ≡ kind) };

    fn from(kind: Kind) -> Self {
        match kind {
            Kind::Table => Choice::First(TableDivider::new()),
            Kind::Serial => Choice::Second(SerialDivider::new()),
        }
    }
}

/// A table divider with all registers zero.
impl Default for Divider {
    ghost is_default = { λ d. (divider_lanes d ≡ zeros ∷ []) × (kind_of d ≡ Table) };

    fn default() -> Self {
        Divider::from(Kind::Table)
    }
}
