//! The bus of a domain: each access is decided first, then recorded or made.
ghost use Rattle.std.specs.Prelude.{◌≡◌, ◌<◌, ◌≤◌, ◌^◌, ◌*◌, ◌&&◌, true, false, length};
ghost use Rattle.mm_base.specs.Bus.{IsAccessWidth};
ghost use Rattle.mm_base.specs.Numbers.{number_of, low_bytes};
ghost use Rattle.mm_base.specs.declared.access.Right.TheVariants as rights;
ghost use Rattle.mm_base.specs.Cells.{is_device_byte};
ghost use Rattle.mm_base.specs.declared.access.Kind.TheVariants as kinds;
ghost use Rattle.secure_policy.specs.Laws.{passes};
ghost use Rattle.supervisor_calls.specs.Accesses.{denial_of, is_code};
ghost use Rattle.supervisor_calls.specs.Deeds.{after_write, with_denied};
ghost use Rattle.supervisor_calls.specs.Domains.{trapped_of, write_verdict};

use crate::access::Access;
use crate::domain::Domain;
use crate::memory_access::is_device;
use mm_base::{
    Bus, CellWrite, Denial, Frames, Kind, MOST_DENIALS, Right, Served, Target, Verdict, Why,
};

/// The place of the trapped access among the saved registers.
const TRAPPED: usize = 18;

/// The `n` low bytes of a number, as a number.
pub(crate) fn low_number(n: u8, value: u64) -> u64
    requires { IsAccessWidth n }
    ensures { result ≡ number_of (low_bytes n value) }
{
    if n == 8 {
        return value;
    }
    value % (1 << (8 * n))
}

impl<F: Frames> Domain<F> {
    /// The access that the processor was trapped at, or 0.
    #[inline(always)]
    pub(crate) fn trapped(&self) -> u64
        ensures { result ≡ trapped_of self.now }
    {
        if self.tables.is_locked() {
            self.saved.0[TRAPPED]
        } else {
            0
        }
    }

    /// A denial, which is recorded where it is one of the first 8.
    pub(crate) fn denied(&mut self, access: Access, why: Why) -> Denial
        ensures value { result ≡ denial_of access.kind access.right access.at access.n why }
        ensures after { self.new ≡ with_denied (denial_of access.kind access.right access.at access.n why) self.old }
    {
        let denial = access.denied(why);
        if self.records.denials() < MOST_DENIALS {
            self.records.deny(denial);
        }
        denial
    }
}

impl<F: Frames> Domain<F> {
    /// Makes a write to memory that passes, and records it where it is to cells.
    #[inline(always)]
    pub(crate) fn put(&mut self, at: u64, n: u8, value: u64)
        requires width { IsAccessWidth n }
        requires passes { passes (write_verdict self.old kinds.Memory at n) ≡ true }
        ensures { self.new ≡ after_write kinds.Memory at n value self.old }
    {
        let trapped = self.trapped();
        self.tables.put(self.image, at, n, value, trapped);
        if is_device(at) {
            self.records.write(CellWrite {
                kind: Kind::Memory,
                at,
                n,
                value: low_number(n, value),
            });
        }
    }

    /// Whether two bytes at an even address may be executed.
    #[inline(always)]
    fn is_code_at(&self, at: u64) -> bool
        ensures { result ≡ is_code self.now.tables.site self.now.image (trapped_of self.now) at }
    {
        let verdict = self.verdict(Access::of_memory(Right::Execute, at, 2));
        at % 2 == 0 && matches!(verdict, Verdict::Pass(_))
    }
}

impl<F: Frames> Bus for Domain<F> {
    ghost use Rattle.supervisor_calls.specs.Services.{domain_meaning};

    ghost meaning = { domain_meaning };

    ghost may_refuse = { true };

    #[inline(always)]
    fn fetch(&mut self, at: u64, n: u8) -> Result<[u8; 18], Denial> {
        let access = Access::of_memory(Right::Execute, at, n);
        match self.verdict(access) {
            Verdict::Pass(_) => Ok(self.tables.code(self.image, at, n, self.trapped())),
            Verdict::Deny(why) => Err(self.denied(access, why)),
        }
    }

    #[inline(always)]
    fn read(&mut self, at: u64, n: u8) -> Result<u64, Denial> {
        let access = Access::of_memory(Right::Read, at, n);
        match self.verdict(access) {
            Verdict::Pass(_) => Ok(self.tables.number(self.image, at, n, self.trapped())),
            Verdict::Deny(why) => Err(self.denied(access, why)),
        }
    }

    #[inline(always)]
    fn write(&mut self, at: u64, n: u8, value: u64) -> Result<(), Denial> {
        let access = Access::of_memory(Right::Write, at, n);
        let verdict = self.verdict(access);
        match self.with_limit(Kind::Memory, at, verdict) {
            Verdict::Pass(_) => {
                self.put(at, n, value);
                Ok(())
            }
            Verdict::Deny(why) => Err(self.denied(access, why)),
        }
    }

    #[inline(always)]
    fn target(&self, at: u64) -> Target {
        match self.tables.service_at(self.image, at) {
            Some(number) => Target::Service(number),
            None if self.is_code_at(at) => Target::Code,
            None => Target::Other,
        }
    }

    fn service(&mut self, number: u8, stack: u64) -> Served {
        self.call(number, stack)
    }
}
