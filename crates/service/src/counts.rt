//! How many lines were answered and refused.
ghost use Rattle.std.specs.Prelude.{◌≡◌, ◌+◌, ◌-◌, ◌^◌, ◌<◌, Some};
ghost use Rattle.service.specs.Served.{shown_counts, answers, refusals};

use desk::Reply;
use std::fmt;

/// How many lines were answered, and how many refused; neither passes `u64::MAX`.
#[derive(Clone, Copy, Default)]
pub(crate) struct Counts {
    pub(crate) answered: u64,
    pub(crate) refused: u64,
}

impl Counts {
    /// Counts a reply.
    pub(crate) fn count(&mut self, reply: &Reply)
        ensures { self.old.answered + self.old.refused < 2 ^ 64 - 1
            → (self.new.answered ≡ self.old.answered + answers reply.now) × (self.new.refused ≡ self.old.refused + refusals reply.now) }
    {
        match reply {
            Reply::Nothing => {}
            Reply::Answer(_) => self.answered = self.answered.saturating_add(1),
            Reply::Refusal(_) => self.refused = self.refused.saturating_add(1),
        }
    }
}

impl fmt::Display for Counts {
    ghost output = { λ c. Some (shown_counts c.answered c.refused) };

    fn fmt<W: fmt::Write>(&self, f: &mut fmt::Formatter<W>) -> fmt::Result {
        let Counts { answered, refused } = *self;
        write!(f, "{answered} requests answered, {refused} lines refused")
    }
}
