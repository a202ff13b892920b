//! Ranges of bytes or cells.
ghost use Rattle.std.specs.Prelude.{◌≡◌, ◌+◌, ◌^◌, ◌≤◌, ◌↔◌, IsSome, IfSome};
ghost use Rattle.mm_base.specs.Range.{encloses, share_a_unit};

/// The `length` units from `base` on. A range that `new` makes ends at 2^64 or before.
#[derive(Clone, Copy, Debug, PartialEq, Eq)]
pub struct Range {
    pub base: u64,
    pub length: u64,
}

impl Range {
    /// The range; None where it would end past 2^64.
    pub fn new(base: u64, length: u64) -> Option<Range>
        ensures fits { IsSome result ↔ (base + length ≤ 2 ^ 64) }
        ensures value { IfSome result (λ range. range ≡ record { base = base; length = length }) }
    {
        if length == 0 || base <= u64::MAX - (length - 1) {
            Some(Range { base, length })
        } else {
            None
        }
    }

    /// Whether some unit is in both ranges. An empty range overlaps nothing.
    pub fn overlaps(&self, other: &Range) -> bool
        ensures { result ≡ share_a_unit self.now other.now }
    {
        if self.base <= other.base {
            other.length > 0 && other.base - self.base < self.length
        } else {
            self.length > 0 && self.base - other.base < other.length
        }
    }

    /// Whether the other range lies in this one, from its begin to its end.
    pub fn covers(&self, other: &Range) -> bool
        ensures { result ≡ encloses self.now other.now }
    {
        if other.base < self.base {
            return false;
        }
        let before = other.base - self.base;
        before <= self.length && other.length <= self.length - before
    }
}
