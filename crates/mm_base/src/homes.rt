//! Homes: what of memory is an image's own.
ghost use Rattle.std.specs.Prelude.{◌≡◌, ℕ, Bool};
ghost use Rattle.mm_base.specs.declared.access.Right.{Right as RightValue};
ghost use Rattle.mm_base.specs.declared.guid.Guid.{Guid as GuidValue};
ghost use Rattle.mm_base.specs.declared.range.Range.{Range as RangeValue};

use crate::{Guid, Range, Right};

/// What of memory is each image's own, and its name, by which rules know it.
pub trait Homes {
    /// Whether one of the image's own ranges that has this right covers a range.
    ghost is_home: { Self → ℕ → RangeValue → RightValue → Bool };

    /// The image's name.
    ghost name_of: { Self → ℕ → GuidValue };

    /// Whether one of the image's own ranges that has this right covers this one.
    fn home(&self, image: u32, range: Range, right: Right) -> bool
        ensures { result ≡ is_home self.now image range right };

    /// The image's name.
    fn owner(&self, image: u32) -> Guid
        ensures { result ≡ name_of self.now image };
}
