//! Up to 8 kinds of dividers.
ghost use Rattle.std.specs.Prelude.{◌≤◌};
ghost use Rattle.arrayvec.specs.ArrayVec.{array_vec_len};

use arrayvec::ArrayVec;
use bank::LANES;
use rack::Kind;

/// The kinds of dividers in a row, at most 8.
#[derive(Drop)]
pub(crate) struct Kinds {
    pub(crate) kinds: ArrayVec<Kind, LANES>,
    ghost few: { array_vec_len kinds ≤ 8 },
}
