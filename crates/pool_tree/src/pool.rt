//! A pool arena, as its live blocks.
ghost use Rattle.std.specs.Prelude.{◌≡◌, ◌≤◌, ◌↔◌, ℕ, [], IfOk, IfSome, IfNone, OnOk, OnErr, IsErr, length};
ghost use Rattle.pool_tree.specs.Pool.{arena_bytes, IsArena, IsBlockSize, IsLive, IsLowestPlace, IsPlace, with_block};
ghost use Rattle.pool_tree.specs.Pool.{without_block};
ghost use Rattle.pool_tree.specs.TreeInside.{AllFree, part_bytes};

use crate::tree::{Node, bytes_at, give, take};
use mm_base::NoMemory;
use std::alloc::Global;
use std::marker::Model;

/// The bytes of an arena.
pub const ARENA_BYTES: u64 = 65_536;

/// The level of the whole arena in the tree of halves.
const TOP: u8 = 12;

/// How many nodes the tree of an arena has.
const NODES: usize = 4_095;

/// No live block begins at this place.
#[derive(Clone, Copy, Debug, PartialEq, Eq)]
pub struct NotLive;

/// An arena of 65,536 bytes, of which it keeps the live blocks, in a tree of 4,095 nodes.
#[derive(Debug, Drop)]
pub struct PoolTree {
    nodes: Vec<Node>,
}

impl Model for PoolTree {
    ghost use Rattle.std.specs.Prelude.{List};
    ghost use Rattle.pool_tree.specs.Pool.{Block};

    ghost Value = { List Block };

    ghost use Rattle.pool_tree.specs.TreeInside.{IsPool, pool_of};

    ghost view = { λ pool. pool_of pool.nodes.items };

    ghost invariant = { λ pool. IsPool pool.nodes.items };
}

impl PoolTree {
    /// An arena without live blocks. It takes all its memory here.
    pub fn new(alloc: Global) -> Result<PoolTree, NoMemory>
        ensures { IfOk result (λ pool. pool ≡ []) }
    {
        let nodes = free_nodes(alloc, NODES)?;
        Ok(PoolTree { nodes })
    }

    /// Makes the lowest block for n bytes live, and gives its place. Its size is the least power of two that is at
    /// least 32 and at least n, and its place is a multiple of its size. None where no such block is free. It takes no
    /// memory. It costs the logarithm of the arena: at most four nodes of each of the 12 levels are looked at.
    pub fn alloc(&mut self, n: u64) -> Option<u32>
        requires { 1 ≤ n }
        ensures lowest { IfSome result (λ place. (size : ℕ) → IsBlockSize n size → IsLowestPlace self.old size place) }
        ensures joins { IfSome result (λ place. (size : ℕ)
            → IsBlockSize n size → self.new ≡ with_block self.old place size) }
        ensures none { (result ≡ None) ↔ ((size place : ℕ) → IsBlockSize n size → ¬ IsPlace self.old size place) }
        ensures unchanged { IfNone result (self.new ≡ self.old) }
    {
        if n > ARENA_BYTES {
            return None;
        }
        let wanted = level_for(n);
        take(self.nodes.as_mut_slice(), TOP, 0, wanted)
    }

    /// Frees the live block that begins at a place. It takes no memory. It costs the logarithm of the arena: at most
    /// three nodes of each of the 12 levels are looked at.
    pub fn free(&mut self, place: u64) -> Result<(), NotLive>
        ensures ok { OnOk result (IsLive self.old place × (self.new ≡ without_block self.old place)) }
        ensures not_live { IsErr result ↔ ¬ IsLive self.old place }
        ensures err { OnErr result (self.new ≡ self.old) }
    {
        give(self.nodes.as_mut_slice(), TOP, 0, place)
    }

    /// What is true of the live blocks of every arena.
    pub(crate) fn lies_apart(&self)
        ensures { IsArena self.now }
    {
        let _nodes = &self.nodes;
    }
}

/// As many nodes of free parts as this.
fn free_nodes(alloc: Global, count: usize) -> Result<Vec<Node>, NoMemory>
    ensures count { IfOk result (λ nodes. length nodes.items ≡ count) }
    ensures free { IfOk result (λ nodes. AllFree nodes.items) }
{
    let nodes = vec![in alloc; Node::Free; count]?;
    Ok(nodes)
}

/// The level of the smallest parts that hold n bytes.
fn level_for(n: u64) -> u8
    requires some { 1 ≤ n }
    requires fits { n ≤ arena_bytes }
    ensures low { 1 ≤ result }
    ensures high { result ≤ 12 }
    ensures size { IsBlockSize n (part_bytes result) }
{
    let mut level = 1;
    while u64::from(bytes_at(level)) < n {
        level += 1;
    }
    level
}
