//! What is read from: a stream of bytes with a count of its faults.
ghost use Rattle.std.specs.Prelude.{◌≡◌, ℕ, ◌<◌, ◌≤◌, List, [], length, take, IfOk, OnErr};
ghost use Rattle.std.specs.declared.option.Option.{Option};
ghost use Rattle.mm_io.specs.Causes.{HasCause};
ghost use Rattle.mm_io.specs.Streams.{Gives, IsUsedUp, IsNothing};

use crate::Failed;

/// A stream of bytes that is read from its front.
pub trait Source {
    /// The bytes that are left to read, where the source tells them.
    ghost left: { Self → Option (List ℕ) };

    /// How many faults came so far; it stops at the last value of 64 bits, and that value counts as risen.
    ghost fault_count: { Self → ℕ };

    /// Reads some of the bytes that are left into the buffer's front, and answers how many.
    /// For a buffer that isn't empty 0 says that nothing was left.
    fn read(&mut self, buf: &mut [u8]) -> Result<usize, Failed>
        ensures within { IfOk result (λ n. n ≤ length buf.old) }
        ensures gives { IfOk result (λ n. Gives (left self.old) (left self.new) (take n buf.new)) }
        ensures end { IsNothing result buf.old → IsUsedUp (left self.old) }
        ensures unchanged { OnErr result (left self.new ≡ left self.old) }
        ensures cause { HasCause (fault_count self.old) (fault_count self.new) result };

    /// How many faults came so far.
    fn faults(&self) -> u64
        ensures { result ≡ fault_count self.now };
}
