//! The two numbers that a relocation block begins with.

/// How many bytes a block's head has.
pub(crate) const HEAD_BYTES: usize = 8;

/// The head of a relocation block: the address of its page, and how many bytes the block has.
#[derive(Clone, Copy, Debug, PartialEq, Eq)]
pub(crate) struct Head {
    pub(crate) page: u32,
    pub(crate) size: u32,
}
