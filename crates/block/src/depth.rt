//! The interleaving depth of a block, and blocks of a depth.
ghost use Rattle.std.specs.Prelude.{◌≡◌, true, length};
ghost use Rattle.block.specs.Depths.{is_depth, block_length};

/// How many lanes a block has: 1, 2, 3, 4, 5 or 8.
#[derive(Clone, Copy, Debug, PartialEq, Eq)]
pub struct Depth {
    pub lanes: usize,
    ghost known: { is_depth lanes ≡ true },
}

/// The bytes of a block, 255 for each lane of its depth.
#[derive(Clone, Copy)]
pub struct Block<'a> {
    pub bytes: &'a [u8],
    pub depth: Depth,
    ghost long: { length bytes.now ≡ block_length depth.lanes },
}
