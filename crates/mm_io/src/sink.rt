//! What is written to: a stream of bytes with a count of its faults.
ghost use Rattle.std.specs.Prelude.{◌≡◌, ℕ, ◌≤◌, List, length, take, IfOk, OnErr};
ghost use Rattle.std.specs.declared.option.Option.{Option};
ghost use Rattle.mm_io.specs.Causes.{HasCause, Rose};
ghost use Rattle.mm_io.specs.Streams.{Appends, IsNothing};

use crate::Failed;

/// A stream of bytes that is written at its end.
pub trait Sink {
    /// The bytes that were written, where the sink tells them.
    ghost written: { Self → Option (List ℕ) };

    /// How many faults came so far; it stops at the last value of 64 bits, and that value counts as risen.
    ghost fault_count: { Self → ℕ };

    /// Takes some bytes from the piece's front, and answers how many.
    /// To take 0 of a piece that isn't empty is a fault, and counted.
    fn write(&mut self, bytes: &[u8]) -> Result<usize, Failed>
        ensures within { IfOk result (λ n. n ≤ length bytes.now) }
        ensures appends { IfOk result (λ n. Appends (written self.old) (written self.new) (take n bytes.now)) }
        ensures nothing { IsNothing result bytes.now → Rose (fault_count self.old) (fault_count self.new) }
        ensures unchanged { OnErr result (written self.new ≡ written self.old) }
        ensures cause { HasCause (fault_count self.old) (fault_count self.new) result };

    /// How many faults came so far.
    fn faults(&self) -> u64
        ensures { result ≡ fault_count self.now };
}
