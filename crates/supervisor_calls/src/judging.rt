//! What a service asks of verdicts: an access is let through, or denied and recorded.
ghost use Rattle.std.specs.Prelude.{◌≡◌, true, false, OnOk, ◌<◌, ◌≤◌, ◌&&◌};
ghost use Rattle.mm_base.specs.Bus.{Answers};
ghost use Rattle.mm_base.specs.declared.access.Kind.TheVariants as kinds;
ghost use Rattle.mm_base.specs.declared.access.Right.TheVariants as rights;
ghost use Rattle.secure_policy.specs.Laws.{passes};
ghost use Rattle.supervisor_calls.specs.Accesses.{denial_of, with_quota, has_used_quota, is_cell_write};
ghost use Rattle.supervisor_calls.specs.Deeds.{refusal, with_denied, out_asked};
ghost use Rattle.supervisor_calls.specs.Domains.{verdict_in, write_verdict};
ghost use Rattle.supervisor_calls.specs.ServicesInside.{read_let_through, write_let_through};

use crate::access::Access;
use crate::domain::Domain;
use crate::memory_access::is_device;
use mm_base::status::ACCESS_DENIED;
use mm_base::{Frames, Kind, MOST_DENIALS, MOST_WRITES, Right, Served, Verdict, Why};

/// How many bytes are written at an out pointer.
pub(crate) const OUT_BYTES: u8 = 8;

/// Whether a write is one to cells.
#[inline(always)]
pub(crate) fn is_to_cells(kind: Kind, at: u64) -> bool
    ensures { result ≡ is_cell_write kind at }
{
    match kind {
        Kind::Memory => is_device(at),
        Kind::Io | Kind::Msr => true,
        Kind::Saved => false,
    }
}

impl<F: Frames> Domain<F> {
    /// The verdict on an access of the image, which says nothing of how many cell writes there may be.
    #[inline(always)]
    pub(crate) fn verdict(&self, access: Access) -> Verdict
        ensures { result ≡ verdict_in self.now access.kind access.at access.n access.right }
    {
        self.tables.decide(self.image, access, self.trapped())
    }

    /// What the verdict on a write becomes where it is to cells, and all writes that may be were made.
    #[inline(always)]
    pub(crate) fn with_limit(&self, kind: Kind, at: u64, verdict: Verdict) -> Verdict
        ensures { result ≡ with_quota kind at self.now.records verdict }
    {
        match verdict {
            Verdict::Pass(_) if is_to_cells(kind, at) && MOST_WRITES <= self.records.writes() => {
                Verdict::Deny(Why::Quota)
            }
            _ => verdict,
        }
    }

    /// Records a denial, and answers how a service is answered for it: the 8th stops the invocation, and so does any after it.
    fn refuse(&mut self, access: Access, why: Why) -> Served
        ensures value { result ≡ refusal (denial_of access.kind access.right access.at access.n why) self.old }
        ensures after { self.new ≡ with_denied (denial_of access.kind access.right access.at access.n why) self.old }
    {
        let last = MOST_DENIALS - 1 <= self.records.denials();
        let denial = self.denied(access, why);
        if last {
            Served::Stop(denial)
        } else {
            Served::Status(ACCESS_DENIED)
        }
    }

    /// Lets a read through, or refuses it.
    pub(crate) fn pass_read(&mut self, kind: Kind, at: u64, n: u8) -> Result<(), Served>
        ensures answer { Answers (read_let_through kind at n self.old) result self.new }
        ensures passes { OnOk result (passes (verdict_in self.new kind at n rights.Read) ≡ true) }
        ensures same { OnOk result (self.new ≡ self.old) }
    {
        let access = Access {
            kind,
            right: Right::Read,
            at,
            n,
        };
        match self.verdict(access) {
            Verdict::Pass(_) => Ok(()),
            Verdict::Deny(why) => Err(self.refuse(access, why)),
        }
    }

    /// Lets a write through, or refuses it.
    pub(crate) fn pass_write(&mut self, kind: Kind, at: u64, n: u8) -> Result<(), Served>
        ensures answer { Answers (write_let_through kind at n self.old) result self.new }
        ensures passes { OnOk result (passes (write_verdict self.new kind at n) ≡ true) }
        ensures same { OnOk result (self.new ≡ self.old) }
    {
        let access = Access {
            kind,
            right: Right::Write,
            at,
            n,
        };
        let verdict = self.verdict(access);
        match self.with_limit(kind, at, verdict) {
            Verdict::Pass(_) => Ok(()),
            Verdict::Deny(why) => Err(self.refuse(access, why)),
        }
    }

    /// Asks whether 8 bytes may be written at an out pointer.
    pub(crate) fn ask_out(&mut self, out: u64) -> Result<(), Served>
        ensures answer { Answers (out_asked out self.old) result self.new }
        ensures passes { OnOk result (passes (write_verdict self.new kinds.Memory out 8) ≡ true) }
        ensures same { OnOk result (self.new ≡ self.old) }
    {
        self.pass_write(Kind::Memory, out, OUT_BYTES)
    }
}
