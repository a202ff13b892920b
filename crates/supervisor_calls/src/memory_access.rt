//! Accesses of images to memory and to the device window, which a verdict has let pass.
ghost use Rattle.std.specs.Prelude.{◌≡◌, ◌⊎◌, ◌<◌, ◌≤◌, ◌-◌, ◌+◌, ◌^◌, ◌++◌, true, Some, length, replicate, IfSome, IfNone};
ghost use Rattle.mm_base.specs.Bus.{IsAccessWidth};
ghost use Rattle.mm_base.specs.Cells.{is_device_byte, is_msr};
ghost use Rattle.mm_base.specs.Numbers.{number_of, low_bytes};
ghost use Rattle.mm_base.specs.declared.access.Kind.TheVariants as kinds;
ghost use Rattle.mm_base.specs.declared.access.Right.TheVariants as rights;
ghost use Rattle.secure_policy.specs.Laws.{passes};
ghost use Rattle.platform_model.specs.Cells.{IsPortWidth};
ghost use Rattle.supervisor_calls.specs.AccessesInside.{AreStored, AreOfDevice};
ghost use Rattle.supervisor_calls.specs.Accesses.{decided, bytes_at, with_bytes, with_number, service_at as service_on, service_of};

use crate::access::Access;
use crate::bytes::{code_from, sixteen_from};
use crate::tables::Tables;
use mm_base::{
    DEVICE_WINDOW, Frames, MMRAM, MOST_FETCHED, Region, Right, SERVICES, Verdict, service_entry,
};

/// Whether an address is one of the device window.
#[inline(always)]
pub(crate) fn is_device(at: u64) -> bool
    ensures { result ≡ is_device_byte at }
{
    DEVICE_WINDOW.base <= at && at < DEVICE_WINDOW.base + DEVICE_WINDOW.length
}

/// The number of the service whose entry stands at an address of this service page.
fn service_in(page: u64, at: u64) -> Option<u8>
    requires { page + 4096 ≤ 2 ^ 64 }
    ensures value { result ≡ service_on page at }
    ensures numbered { IfSome result (λ number. number < 20) }
{
    for number in 0..SERVICES {
        if service_entry(page, number) == at {
            return Some(number);
        }
    }
    None
}

impl<F: Frames> Tables<F> {
    /// The verdict on an access of an image, by the policy and the image's own ranges.
    #[inline(always)]
    pub(crate) fn decide(&self, image: u32, access: Access, trapped: u64) -> Verdict
        ensures { result ≡ decided self.now.site image access.kind access.at access.n access.right trapped }
    {
        let Access { kind, right, at, n } = access;
        self.guard
            .decide(&self.images, image, kind, at, n, right, trapped)
    }

    /// The place in memory of bytes that an image may access; none where they lie in the device window.
    #[inline(always)]
    fn place(&self, image: u32, right: Right, at: u64, n: u8, trapped: u64) -> Option<u32>
        requires some { 1 ≤ n }
        requires passes { passes (decided self.now.site image kinds.Memory at n right trapped) ≡ true }
        ensures stored { IfSome result (AreStored self.now at n) }
        ensures device { IfNone result (AreOfDevice at n) }
    {
        self.keeps();
        if is_device(at) {
            None
        } else {
            Some((at - MMRAM.base) as u32)
        }
    }

    /// The bytes of an instruction that an image may execute, in front of zeros.
    #[inline(always)]
    pub(crate) fn code(&self, image: u32, at: u64, n: u8, trapped: u64) -> [u8; MOST_FETCHED]
        requires low { 1 ≤ n }
        requires high { n ≤ 18 }
        requires passes { passes (decided self.now.site image kinds.Memory at n rights.Execute trapped) ≡ true }
        ensures { result ≡ bytes_at self.now.live at n ++ replicate (18 - n) 0 }
    {
        self.keeps();
        code_from(&self.memory, (at - MMRAM.base) as u32, n)
    }

    /// The 16 bytes from an address on, which an image may read.
    pub(crate) fn sixteen(&self, image: u32, at: u64, trapped: u64) -> [u8; 16]
        requires passes { passes (decided self.now.site image kinds.Memory at 16 rights.Read trapped) ≡ true }
        ensures { result ≡ bytes_at self.now.live at 16 }
    {
        self.keeps();
        match self.place(image, Right::Read, at, 16, trapped) {
            Some(place) => sixteen_from(&self.memory, place),
            None => self.platform.sixteen_bytes(at),
        }
    }

    /// The number in bytes that an image may read.
    #[inline(always)]
    pub(crate) fn number(&self, image: u32, at: u64, n: u8, trapped: u64) -> u64
        requires width { IsAccessWidth n }
        requires passes { passes (decided self.now.site image kinds.Memory at n rights.Read trapped) ≡ true }
        ensures { result ≡ number_of (bytes_at self.now.live at n) }
    {
        match self.place(image, Right::Read, at, n, trapped) {
            Some(place) => self.memory.read(place, n),
            None => self.platform.dev_read(at, n),
        }
    }

    /// Writes the low bytes of a number where an image may write.
    #[inline(always)]
    pub(crate) fn put(&mut self, image: u32, at: u64, n: u8, value: u64, trapped: u64)
        requires width { IsAccessWidth n }
        requires passes { passes (decided self.old.site image kinds.Memory at n rights.Write trapped) ≡ true }
        ensures { self.new ≡ record self.old { live = with_bytes at (low_bytes n value) self.old.live } }
    {
        match self.place(image, Right::Write, at, n, trapped) {
            Some(place) => self.memory.write(place, n, value),
            None => self.platform.dev_write(at, n, value),
        }
    }

    /// Writes the low bytes of a number to ports.
    pub(crate) fn write_ports(&mut self, port: u64, n: u8, value: u64)
        requires width { IsPortWidth n }
        requires within { port + n ≤ 65536 }
        ensures { self.new ≡ record self.old { live = with_number kinds.Io port n value self.old.live } }
    {
        self.platform.io_write(port, n, value);
    }

    /// Writes a model-specific register.
    pub(crate) fn write_msr(&mut self, index: u64, value: u64)
        requires { is_msr index ≡ true }
        ensures { self.new ≡ record self.old { live = with_number kinds.Msr index 1 value self.old.live } }
    {
        self.platform.wrmsr(index, value);
    }

    /// The number of the service of an image whose entry stands at an address. It costs one step a service.
    pub(crate) fn service_at(&self, image: u32, at: u64) -> Option<u8>
        requires { image < length self.now.site.images }
        ensures value { result ≡ service_of self.now.site image at }
        ensures numbered { IfSome result (λ number. number < 20) }
    {
        self.keeps();
        let region = Region {
            base: self.images.base(image),
            pages: self.images.pages(image),
        };
        service_in(region.service_page().base, at)
    }
}
