//! What is taken back of a start that failed.
ghost use Rattle.std.specs.Prelude.{◌≡◌, ◌*◌, false};
ghost use Rattle.mm_base.specs.Frames.{zeros};
ghost use Rattle.mm_base.specs.Numbers.{overwritten};
ghost use Rattle.page_runs.specs.Runs.{with_run};
ghost use Rattle.supervisor_calls.specs.Loading.{with_memory, without_last};
ghost use Rattle.driver_start.specs.StartsInside.{MayWithdraw};

use mm_base::{Frames, PAGE_BYTES};
use page_runs::RunMap;
use supervisor_calls::Tables;

/// The numbers that the next handler and the next handle have.
#[derive(Clone, Copy, Debug, PartialEq, Eq)]
pub(crate) struct Counters {
    pub(crate) number: u32,
    pub(crate) handle: u64,
}

/// Takes the last image out again: its pages are zero and free, its handlers and interfaces are gone, and the next ones get these numbers.
pub(crate) fn withdraw<F: Frames>(
    tables: &mut Tables<F>,
    taken: &mut RunMap,
    page: u32,
    pages: u32,
    counters: Counters,
)
    requires { MayWithdraw tables.old taken.old page pages counters.number counters.handle }
    ensures tables { tables.new ≡ with_memory (overwritten tables.old.live.memory (4096 * page) (zeros (4096 * pages)))
        (without_last counters.number counters.handle tables.old) }
    ensures taken { taken.new ≡ with_run false page pages taken.old }
{
    tables.withdraw(counters.number, counters.handle);
    tables.clear(PAGE_BYTES * page, PAGE_BYTES * pages);
    taken.give(page, pages);
}
