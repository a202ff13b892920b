//! Laws of the entry step: who is dispatched, and which handlers run. And what the version handler is. These functions do
//! nothing: their contracts are the laws.
ghost use Rattle.std.specs.Prelude.{◌≡◌};
ghost use Rattle.mm_core.specs.Laws.{DispatchedExactly, RootAlwaysRuns, ChainRunsInOrder};
ghost use Rattle.mm_core.specs.Version.{version_guid, version_number};

use crate::{VERSION_GUID, VERSION_NUMBER};

/// Handlers of a GUID are called exactly where the request is addressed to it.
pub fn who_is_dispatched()
    ensures { DispatchedExactly }
{}

/// At each entry all root handlers run, in order of registration.
pub fn root_always_runs()
    ensures { RootAlwaysRuns }
{}

/// The handlers of a GUID run in order of registration, from the first on to the one whose status stops the chain.
pub fn chain_runs_in_order()
    ensures { ChainRunsInOrder }
{}

/// The GUID and the number of the version handler are those that the definitions say.
pub fn version_handler()
    ensures guid { VERSION_GUID ≡ version_guid }
    ensures number { VERSION_NUMBER ≡ version_number }
{}
