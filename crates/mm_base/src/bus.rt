//! A bus: what byte code reads, writes and asks for.
ghost use Rattle.std.specs.Prelude.{◌≡◌, ◌≤◌, ◌<◌, ◌⊎◌, ℕ, Bool};
ghost use Rattle.mm_base.specs.Bus.{Meaning, Answers, IsAccessWidth, IsRefusal};

use crate::{Denial, NoMemory};

/// The most bytes that one fetch asks for: those of the longest instruction.
pub const MOST_FETCHED: usize = 18;

/// What stands at the target of a native call.
#[derive(Clone, Copy, Debug, PartialEq, Eq)]
pub enum Target {
    /// The entry of the service with this number.
    Service(u8),
    /// Byte code that may be executed.
    Code,
    /// Neither.
    Other,
}

/// How a service was answered.
#[derive(Clone, Copy, Debug, PartialEq, Eq)]
pub enum Served {
    /// With this status.
    Status(u64),
    /// The invocation stops at this denial.
    Stop(Denial),
    /// A growth was refused.
    NoMemory(NoMemory),
}

/// What byte code runs over. What each call answers and leaves is a function of the bus and of the call's arguments.
pub trait Bus {
    /// What each call answers and leaves.
    ghost meaning: { Meaning Self };

    /// Whether a service may be refused memory.
    ghost may_refuse: { Bool };

    /// Fetches `n` bytes of an instruction, which stand at the front of the answer.
    fn fetch(&mut self, at: u64, n: u8) -> Result<[u8; 18], Denial>
        requires low { 1 ≤ n }
        requires high { n ≤ 18 }
        ensures { Answers (meaning.fetches self.old at n) result self.new };

    /// Reads the number in `n` bytes.
    fn read(&mut self, at: u64, n: u8) -> Result<u64, Denial>
        requires { IsAccessWidth n }
        ensures { Answers (meaning.reads self.old at n) result self.new };

    /// Writes the `n` low bytes of a number.
    fn write(&mut self, at: u64, n: u8, value: u64) -> Result<(), Denial>
        requires { IsAccessWidth n }
        ensures { Answers (meaning.writes self.old at n value) result self.new };

    /// What stands at the target of a native call: a question that reads nothing.
    fn target(&self, at: u64) -> Target
        ensures answer { result ≡ meaning.targets self.now at }
        ensures numbered { (number : ℕ) → result ≡ Target.Service number → number < 20 };

    /// Makes a service, whose arguments stand on the stack. Out of memory alone is free, and is answered only over a bus whose services
    /// may be refused memory.
    fn service(&mut self, number: u8, stack: u64) -> Served
        requires { number < 20 }
        ensures { IsRefusal may_refuse result ⊎ Answers (meaning.serves self.old number stack) result self.new };
}
