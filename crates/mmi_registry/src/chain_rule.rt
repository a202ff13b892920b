//! The chain rule: what a handler's status makes of the result of its chain.
ghost use Rattle.std.specs.Prelude.{◌≡◌};
ghost use Rattle.mmi_registry.specs.ChainRule.{stops, result_after};

use mm_base::status::{
    INTERRUPT_PENDING, SUCCESS, WARN_INTERRUPT_SOURCE_PENDING, WARN_INTERRUPT_SOURCE_QUIESCED,
};

/// The result of a chain after a handler that returned `status`, where it was `so_far`; and whether the chain stops
/// there. Before the first handler it is NOT_FOUND. `root` says that the chain is the root chain.
pub fn combine(root: bool, so_far: u64, status: u64) -> (u64, bool)
    ensures becomes { result.0 ≡ result_after root so_far status }
    ensures stops { result.1 ≡ stops root status }
{
    match status {
        SUCCESS => (SUCCESS, !root),
        INTERRUPT_PENDING if root => (so_far, false),
        INTERRUPT_PENDING => (INTERRUPT_PENDING, true),
        WARN_INTERRUPT_SOURCE_QUIESCED => (SUCCESS, false),
        WARN_INTERRUPT_SOURCE_PENDING if so_far != SUCCESS => (status, false),
        _ => (so_far, false),
    }
}
