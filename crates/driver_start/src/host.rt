//! What a core has while it starts its drivers.
ghost use Rattle.std.specs.Prelude.{◌≡◌, ◌*◌, true, false, replicate, IfOk};
ghost use Rattle.mm_base.specs.Frames.{zeros};
ghost use Rattle.driver_start.specs.Hosts.{IsHost, IsOpenedWith, opening_host};

use mm_base::{Frames, NoMemory, Opening, Policy};
use mm_memory::{Memory, PlainFrames};
use page_runs::RunMap;
use platform_model::Platform;
use secure_policy::Guard;
use std::alloc::Global;
use std::marker::Model;
use supervisor_calls::Tables;

/// How many pages management-mode memory has.
const PAGES: u32 = 8_192;

/// The tables of a core while it starts its drivers, and which pages of memory are taken.
#[derive(Drop)]
pub struct Host<F: Frames> {
    pub(crate) tables: Tables<F>,
    pub(crate) taken: RunMap,
}

impl<F: Frames> Model for Host<F> {
    ghost use Rattle.driver_start.specs.Hosts.{HostState, IsHost};

    ghost Value = { HostState };

    ghost view = { λ host. record { tables = host.tables; taken = host.taken } };

    ghost invariant = { λ host. IsHost (record { tables = host.tables; taken = host.taken }) };
}

impl<F: Frames + Drop> Host<F> {
    /// Tables before the first start: no page is taken. It takes the memory of the pages' flags.
    pub fn new(alloc: Global, tables: Tables<F>) -> Result<Host<F>, NoMemory>
        requires { IsHost (record { tables = tables; taken = replicate 8192 false }) }
        ensures { IfOk result (λ host. host ≡ record { tables = tables; taken = replicate 8192 false }) }
    {
        let taken = RunMap::new(alloc, PAGES)?;
        Ok(Host { tables, taken })
    }
}

/// Memory of this many pages, all zero.
fn zero_memory(alloc: Global, pages: u32) -> Result<Memory<PlainFrames>, NoMemory>
    ensures { IfOk result (λ memory. memory ≡ record { bytes = zeros (4096 * pages); live = replicate pages true }) }
{
    Ok(Memory::new(PlainFrames::new(alloc, pages)?))
}

impl Host<PlainFrames> {
    /// The host before the first start, under a policy and with opening cells: there are no images, handlers and interfaces, memory is
    /// zero, and no page of it is taken. It takes 32 MiB for the pages of memory, and the memory of the tables.
    pub fn opening(
        alloc: Global,
        policy: Policy,
        opening: &Opening,
    ) -> Result<Host<PlainFrames>, NoMemory>
        requires { IsOpenedWith policy opening.now.cells }
        ensures { IfOk result (λ host. host ≡ opening_host policy opening.now.cells) }
    {
        let memory = zero_memory(alloc, PAGES)?;
        let guard = Guard::new(alloc, policy)?;
        let platform = Platform::new(alloc, opening)?;
        let tables = Tables::new(alloc, memory, guard, platform)?;
        Host::new(alloc, tables)
    }
}

impl<F: Frames> Host<F> {
    /// The tables, as they are then.
    pub fn into_tables(self) -> Tables<F>
        ensures { result ≡ self.tables }
    {
        let Host { tables, .. } = self;
        tables
    }

    /// The tables.
    pub fn tables(&self) -> &Tables<F>
        ensures { result.now ≡ self.now.tables }
    {
        &self.tables
    }
    /// What holds of all hosts.
    pub fn keeps(&self)
        ensures { IsHost self.now }
    {
        let _ = &self.tables;
    }
}
