//! The tree of halves. A part of level l has 16 · 2^l bytes and is two halves of the level below. Its node stands
//! first, then the nodes of its left half and those of its right half. A part of level 0 has no node.
ghost use Rattle.std.specs.Prelude.{◌≡◌, ◌+◌, ◌*◌, ◌≤◌, ◌<◌, length};
ghost use Rattle.pool_tree.specs.PoolInside.{Gives, Frees, IsPart};
ghost use Rattle.pool_tree.specs.TreeInside.{part_bytes, node_count, node_first, room_in, node_over, IsKept};
ghost use Rattle.pool_tree.specs.TreeInside.{IsKeptBelow};
ghost use Rattle.pool_tree.specs.TreeInside.{is_free_node, is_live_node, live_in, live_below};

use crate::NotLive;

/// What a node says of its part.
#[derive(Clone, Copy, Debug, PartialEq, Eq)]
pub enum Node {
    /// No byte lies in a live block.
    Free,

    /// The part is one live block.
    Live,

    /// Live blocks lie in its halves; the largest free part within it has this level, and 0 says that there is none.
    Halved(u8),
}

/// The bytes of a part of this level.
pub fn bytes_at(level: u8) -> u32
    requires { level ≤ 12 }
    ensures { result ≡ part_bytes level }
{
    16 << level
}

fn is_free(node: Node) -> bool
    ensures { result ≡ is_free_node node }
{
    matches!(node, Node::Free)
}

fn is_live(node: Node) -> bool
    ensures { result ≡ is_live_node node }
{
    matches!(node, Node::Live)
}

/// The level of the largest free part within a part of this level, 0 where there is none.
fn room(node: Node, level: u8) -> u8
    ensures { result ≡ room_in level node }
{
    match node {
        Node::Free => level,
        Node::Live => 0,
        Node::Halved(room) => room,
    }
}

/// The first node, which is that of the whole part; a part of level 0 is free.
fn first_of(nodes: &[Node]) -> Node
    ensures { result ≡ node_first nodes.now }
{
    match nodes {
        [] => Node::Free,
        [node, ..] => *node,
    }
}

/// The node of a part that isn't live as a whole, by those of its halves, which have this level.
fn joined(below: &[Node], level: u8) -> Node
    requires { length below.now ≡ 2 * node_count level }
    ensures { result ≡ node_over level below.now }
{
    let middle = below.len() / 2;
    let left = first_of(&below[..middle]);
    let right = first_of(&below[middle..]);
    if is_free(left) && is_free(right) {
        Node::Free
    } else {
        Node::Halved(room(left, level).max(room(right, level)))
    }
}

/// In a part that begins at `base`: makes the lowest free part of the wanted level a live block, and gives its place.
#[cycle(take)]
pub fn take(nodes: &mut [Node], level: u8, base: u32, wanted: u8) -> Option<u32>
    requires nodes { length nodes.old ≡ node_count level }
    requires kept { IsKept level nodes.old }
    requires high { level ≤ 12 }
    requires wanted { 1 ≤ wanted }
    requires part { IsPart level base }
    ensures kept { IsKept level nodes.new }
    ensures gives { Gives base (part_bytes level) (part_bytes wanted)
        (live_in level base nodes.old) (live_in level base nodes.new) result }
{
    if room(first_of(nodes), level) < wanted {
        return None;
    }
    if level == wanted {
        nodes[0] = Node::Live;
        return Some(base);
    }
    let below = &mut nodes[1..];
    let place = take_below(below, level - 1, base, wanted);
    let node = joined(below, level - 1);
    nodes[0] = node;
    place
}

/// The same in the two halves of a part, the left one first. They have this level, and `base` is the part's.
#[cycle(take)]
fn take_below(below: &mut [Node], level: u8, base: u32, wanted: u8) -> Option<u32>
    requires nodes { length below.old ≡ 2 * node_count level }
    requires kept { IsKeptBelow level below.old }
    requires high { level < 12 }
    requires wanted { 1 ≤ wanted }
    requires fits { wanted ≤ level }
    requires part { IsPart (level + 1) base }
    ensures kept { IsKeptBelow level below.new }
    ensures gives { Gives base (2 * part_bytes level) (part_bytes wanted)
        (live_below level base below.old) (live_below level base below.new) result }
{
    let middle = below.len() / 2;
    let (left, right) = below.split_at_mut(middle);
    let found = take(left, level, base, wanted);
    if found.is_some() {
        return found;
    }
    take(right, level, base + bytes_at(level), wanted)
}

/// In a part that begins at `base`: frees the live block that begins at a place.
#[cycle(give)]
pub fn give(nodes: &mut [Node], level: u8, base: u64, place: u64) -> Result<(), NotLive>
    requires nodes { length nodes.old ≡ node_count level }
    requires kept { IsKept level nodes.old }
    requires high { level ≤ 12 }
    requires part { IsPart level base }
    ensures kept { IsKept level nodes.new }
    ensures frees { Frees place (live_in level base nodes.old) (live_in level base nodes.new) result }
{
    if level == 0 {
        return Err(NotLive);
    }
    if is_live(first_of(nodes)) {
        if place != base {
            return Err(NotLive);
        }
        nodes[0] = Node::Free;
        return Ok(());
    }
    let below = &mut nodes[1..];
    let given = give_below(below, level - 1, base, place);
    let node = joined(below, level - 1);
    nodes[0] = node;
    given
}

/// The same in that half of a part in which the place lies. The halves have this level, and `base` is the part's.
#[cycle(give)]
fn give_below(below: &mut [Node], level: u8, base: u64, place: u64) -> Result<(), NotLive>
    requires nodes { length below.old ≡ 2 * node_count level }
    requires kept { IsKeptBelow level below.old }
    requires high { level < 12 }
    requires part { IsPart (level + 1) base }
    ensures kept { IsKeptBelow level below.new }
    ensures frees { Frees place (live_below level base below.old) (live_below level base below.new) result }
{
    let middle = below.len() / 2;
    let (left, right) = below.split_at_mut(middle);
    let second = base + u64::from(bytes_at(level));
    if place < second {
        return give(left, level, base, place);
    }
    give(right, level, second, place)
}
