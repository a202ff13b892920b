//! What a core consists of.
use mm_memory::PlainFrames;
use mmi_registry::Registry;
use platform_model::Platform;
use supervisor_calls::Tables;

/// What a core consists of: a script's has no images, and so no memory; that of a boot has the tables that its drivers left.
#[derive(Drop)]
pub(crate) enum CoreParts {
    /// The handlers of a script, and the cells.
    Scripted(Registry, Platform),
    /// The tables after a boot. They are away only while a handler runs.
    Booted(Option<Tables<PlainFrames>>),
}
