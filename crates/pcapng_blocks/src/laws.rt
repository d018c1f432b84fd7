//! Laws of blocks, which run nothing.

ghost use Rattle.std.specs.Prelude.{ℕ, ◌≡◌, List};
ghost use Rattle.pcapng_blocks.specs.Blocks.{BlockData, AreBlocks, blocks_bytes};
ghost use Rattle.pcapng_blocks.specs.Reading.{HoldsBlocks};

/// Law: the bytes of blocks hold these blocks, by what a reader finds in them.
pub fn blocks_are_read_back()
    ensures { (blocks : List BlockData) → AreBlocks blocks
        → HoldsBlocks (blocks_bytes blocks) blocks }
{}

/// Law: bytes hold one list of blocks at most.
pub fn bytes_hold_one_list_of_blocks()
    ensures { (bytes : List ℕ) (blocks others : List BlockData) → HoldsBlocks bytes blocks
        → HoldsBlocks bytes others → blocks ≡ others }
{}
