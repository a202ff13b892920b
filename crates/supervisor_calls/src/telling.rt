//! What tables tell of their handlers, their interfaces, their images and their policy.
ghost use Rattle.std.specs.Prelude.{◌≡◌, ℕ, ◌+◌, ◌<◌, ◌≤◌, length, slice_get, Some};
ghost use Rattle.std.specs.List.{list_any};
ghost use Rattle.std.specs.Option.{option_map};
ghost use Rattle.image_table.specs.ImageTable.{home_ranges_at, name_at};
ghost use Rattle.mm_base.specs.Numbers.{number_in};
ghost use Rattle.mm_base.specs.Policies.{IsLawfulPolicy};
ghost use Rattle.mm_memory.specs.Flat.{AreLive};
ghost use Rattle.mmi_registry.specs.Handlers.{chain_of};
ghost use Rattle.protocol_db.specs.Rows.{AreApart, is_of_guid, owned_by};
ghost use Rattle.supervisor_calls.specs.Accesses.{decided};

use crate::access::Access;
use crate::tables::Tables;
use mm_base::{Frames, Guid, Handler, Homes, Kind, Policy, Range, Region, Right, Verdict};

impl<F: Frames> Tables<F> {
    /// How many handlers there are: 321 at most.
    pub fn handlers(&self) -> usize
        ensures value { result ≡ length self.now.registry.handlers }
        ensures most { length self.now.registry.handlers ≤ 321 }
    {
        self.registry.len()
    }

    /// The handler at place `k` of all, in order of registration; None past the last. It costs one step.
    pub fn handler(&self, k: u32) -> Option<Handler>
        ensures { result ≡ slice_get self.now.registry.handlers k }
    {
        self.registry.all(k)
    }

    /// The handler at place `k` of a GUID's chain, in order of registration; None past the last. It costs one step a handler.
    pub fn chain(&self, guid: Guid, k: u32) -> Option<Handler>
        ensures { result ≡ slice_get (chain_of (Some guid) self.now.registry.handlers) k }
    {
        self.registry.chain(guid, k)
    }

    /// How many interfaces there are. An image owns 16 at most.
    pub fn interfaces(&self) -> usize
        ensures value { result ≡ length self.now.protocols.rows }
        ensures apart { AreApart self.now.protocols.rows }
        ensures most { (owner : ℕ) → length (owned_by owner self.now.protocols.rows) ≤ 16 }
    {
        self.protocols.rows()
    }

    /// Whether an interface is installed for a GUID. It costs the same however many there are.
    pub fn has_interface(&self, guid: Guid) -> bool
        ensures { result ≡ list_any (is_of_guid guid) self.now.protocols.rows }
    {
        self.protocols.has(guid)
    }

    /// The name of an image; the GUID of zeros where there is none of this number.
    pub fn name(&self, image: u32) -> Guid
        ensures { result ≡ name_at self.now.site.images image }
    {
        self.images.owner(image)
    }

    /// The region of an image.
    pub fn region(&self, image: u32) -> Region
        requires { image < length self.now.site.images }
        ensures { option_map (λ placed. placed.region) (slice_get self.now.site.images image) ≡ Some result }
    {
        Region {
            base: self.images.base(image),
            pages: self.images.pages(image),
        }
    }

    /// The number in the `n` bytes of memory from `at`, for `n` of 1 to 8. It costs one or two reads of a page.
    pub fn number_in_memory(&self, at: u32, n: u8) -> u64
        requires low { 1 ≤ n }
        requires high { n ≤ 8 }
        requires within { at + n ≤ 33554432 }
        requires live { AreLive self.now.pages at n }
        ensures { result ≡ number_in self.now.live.memory at n }
    {
        self.keeps();
        self.memory.read(at, n)
    }

    /// How many home ranges an image has. It costs one step.
    pub fn home_ranges(&self, image: u32) -> u32
        requires { image < length self.now.site.images }
        ensures value { result ≡ length (home_ranges_at self.now.site.images image) }
        ensures most { length (home_ranges_at self.now.site.images image) ≤ 33554438 }
    {
        self.images.ranges(image)
    }

    /// The home range at place `k` of an image by rising address, with the bits of its rights (1 for read, 2 for write, 4 for
    /// execute); None past the last. It costs a bounded number of steps.
    pub fn home_range(&self, image: u32, k: u32) -> Option<(Range, u8)>
        requires { image < length self.now.site.images }
        ensures { result ≡ slice_get (home_ranges_at self.now.site.images image) k }
    {
        self.images.range(image, k)
    }

    /// The policy.
    pub fn policy(&self) -> &Policy
        ensures value { result.now ≡ self.now.site.policy }
        ensures lawful { IsLawfulPolicy result.now }
    {
        self.guard.policy()
    }

    /// The verdict on an access of an image to one unit, where no access was trapped. It costs one step a rule, up to the one that
    /// decides.
    pub fn verdict(&self, image: u32, kind: Kind, unit: u64, right: Right) -> Verdict
        ensures { result ≡ decided self.now.site image kind unit 1 right 0 }
    {
        let access = Access {
            kind,
            right,
            at: unit,
            n: 1,
        };
        self.decide(image, access, 0)
    }
}
