//! Kinds are listed one after another, as long as there is room.
ghost use Rattle.std.specs.Prelude.{◌≡◌, [], ◌∷◌, ◌++◌, replicate};
ghost use Rattle.rack.specs.declared.kind.Kind.TheVariants.{Table};
ghost use Rattle.lineup.specs.Kinds.{first_eight, listed};

use crate::kinds::Kinds;
use arrayvec::ArrayVec;
use rack::Kind;

impl Kinds {
    /// No kinds.
    pub(crate) fn new() -> Self
        ensures { listed result ≡ [] }
    {
        Kinds {
            kinds: ArrayVec::new(),
        }
    }

    /// Adds a kind behind the others; past 8 it does not count.
    pub(crate) fn push(&mut self, kind: Kind)
        ensures { listed self.new ≡ first_eight (listed self.old ++ (kind ∷ [])) }
    {
        let _ = self.kinds.try_push(kind);
    }

    /// Adds n table dividers.
    pub(crate) fn push_tables(&mut self, n: u8)
        ensures { listed self.new ≡ first_eight (listed self.old ++ replicate n Table) }
    {
        for _ in 0..n {
            self.push(Kind::Table);
        }
    }
}
