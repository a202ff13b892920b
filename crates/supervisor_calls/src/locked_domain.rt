//! The bus of a domain after lock: none of its services takes memory.
ghost use Rattle.std.specs.Prelude.{◌≡◌, ◌<◌, [], true, false, length};

use crate::domain::{Domain, enter};
use crate::tables::Tables;
use mm_base::{Bus, Denial, Frames, Records, Saved, Served, Target};
use std::marker::Model;

/// A domain whose tables are locked. They stay so, and so no service of it is refused memory.
#[derive(Drop)]
pub struct LockedDomain<F: Frames> {
    domain: Domain<F>,
}

impl<F: Frames> Model for LockedDomain<F> {
    ghost use Rattle.std.specs.Prelude.{◌≡◌, true};
    ghost use Rattle.supervisor_calls.specs.Domains.{DomainState};

    ghost Value = { DomainState };

    ghost view = { λ d. d.domain };

    ghost invariant = { λ d. d.domain.tables.locked ≡ true };
}

/// The domain of an invocation of an image after lock, for which these registers were saved. It takes no memory and copies no page.
pub fn enter_locked<F: Frames>(
    tables: Tables<F>,
    image: u32,
    saved: Saved,
    records: Records,
) -> LockedDomain<F>
    requires admitted { image < length tables.site.images }
    requires locked { tables.locked ≡ true }
    requires blank { records ≡ record { denials = []; writes = [] } }
    ensures { result ≡ record { tables = tables; image = image; saved = saved; records = records } }
{
    LockedDomain {
        domain: enter(tables, image, saved, records),
    }
}

impl<F: Frames> LockedDomain<F> {
    /// The tables and the records, as they are then. It takes no memory and copies no page.
    pub fn leave(self) -> (Tables<F>, Records)
        ensures tables { result.0 ≡ self.tables }
        ensures records { result.1 ≡ self.records }
    {
        let LockedDomain { domain } = self;
        domain.leave()
    }
}

impl<F: Frames> Bus for LockedDomain<F> {
    ghost use Rattle.std.specs.Prelude.{false};
    ghost use Rattle.supervisor_calls.specs.Services.{domain_meaning};

    ghost meaning = { domain_meaning };

    ghost may_refuse = { false };

    #[inline(always)]
    fn fetch(&mut self, at: u64, n: u8) -> Result<[u8; 18], Denial> {
        self.domain.fetch(at, n)
    }

    #[inline(always)]
    fn read(&mut self, at: u64, n: u8) -> Result<u64, Denial> {
        self.domain.read(at, n)
    }

    #[inline(always)]
    fn write(&mut self, at: u64, n: u8, value: u64) -> Result<(), Denial> {
        self.domain.write(at, n, value)
    }

    #[inline(always)]
    fn target(&self, at: u64) -> Target {
        self.domain.target(at)
    }

    fn service(&mut self, number: u8, stack: u64) -> Served {
        self.domain.call(number, stack)
    }
}
