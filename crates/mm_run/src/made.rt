//! What a command makes of the bytes of its source.
use comm_core::World;
use mm_base::Bytes;
use mm_core::Core;

/// The report that was made, and the world that was driven for it, where the command drives one.
#[derive(Drop)]
pub(crate) struct Made {
    pub(crate) world: Option<World<Core>>,
    pub(crate) text: Bytes,
}
