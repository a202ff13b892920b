//! What is true of every arena, as empty functions whose clauses say it.
ghost use Rattle.std.specs.Prelude.{◌≡◌, ◌*◌};
ghost use Rattle.pool_tree.specs.Pool.{IsArena, arena_bytes};
ghost use Rattle.pool_tree.specs.PoolLaws.{EachHasASize, FreedIsAPlace, HandedOutIsAligned, HandedOutIsApart};
ghost use Rattle.pool_tree.specs.PoolLaws.{SizeIsOne};

use crate::{ARENA_BYTES, PoolTree};
use mm_base::{PAGE_BYTES, POOL_PAGES};

/// An arena has 65,536 bytes, those of an image's pool pages.
pub fn arenas()
    ensures bytes { ARENA_BYTES ≡ arena_bytes }
    ensures pages { POOL_PAGES * PAGE_BYTES ≡ arena_bytes }
{}

/// A block that `alloc` gives lies in the arena, is aligned to its size, and meets no live block.
pub fn handed_out_blocks()
    ensures aligned { HandedOutIsAligned }
    ensures apart { HandedOutIsApart }
{}

/// The live blocks of an arena lie in it, aligned to their sizes, in rising order of place, and apart.
pub fn live_blocks(pool: &PoolTree)
    ensures { IsArena pool.now }
{
    pool.lies_apart();
}

/// What was freed can be had again: a block of its size may lie there.
pub fn freed_blocks()
    ensures { FreedIsAPlace }
{}

/// Each count of bytes has one block size.
pub fn block_sizes()
    ensures each { EachHasASize }
    ensures one { SizeIsOne }
{}
