//! How a reader ends that doesn't give what it was asked for.
ghost use Rattle.std.specs.Prelude.{◌≡◌};
ghost use Rattle.mm_base.specs.declared.end.End.TheVariants.{NoMemory as OutOfMemory};

use crate::NoMemory;

/// Why bytes were not read: their first fault, or out of memory.
#[derive(Clone, Copy, Debug, PartialEq, Eq)]
pub enum End<F> {
    /// The first fault that they have.
    Fault(F),
    /// A growth was refused.
    NoMemory(NoMemory),
}

impl<F> From<NoMemory> for End<F> {
    ghost from_gives = { λ refused end. end ≡ OutOfMemory refused };

    fn from(refused: NoMemory) -> Self {
        End::NoMemory(refused)
    }
}
