//! What a machine is: whatever answers captured requests, one after another.
ghost use Rattle.std.specs.Prelude.{◌≡◌, ℕ};
ghost use Rattle.mm_base.specs.declared.entry.Request.{Request};
ghost use Rattle.mm_base.specs.declared.entry.Outcome.{Outcome};
ghost use Rattle.mm_base.specs.Machine.{IsWithin};
ghost use Rattle.mm_base.specs.Prepared.{Suffices};

use crate::Prepared;

/// Whatever answers captured requests, one after another. Its meaning is one function.
pub trait Machine {
    /// The outcome of a request, and the machine after it.
    ghost stepped: { Self → Request → Outcome × Self };

    /// The most invocations that one entry has.
    ghost most_calls: { Self → ℕ };

    /// The most invocations that one entry has.
    fn calls(&self) -> u32
        ensures { result ≡ most_calls self.now };

    /// Fills in the outcome of the prepared request. It takes no memory.
    fn step(&mut self, prepared: &mut Prepared)
        requires { Suffices (most_calls self.old) prepared.old }
        ensures request { prepared.new.entry.request ≡ prepared.old.entry.request }
        ensures outcome { prepared.new.entry.outcome ≡ (stepped self.old prepared.old.entry.request).0 }
        ensures after { self.new ≡ (stepped self.old prepared.old.entry.request).1 }
        ensures second { prepared.new.second ≡ prepared.old.second };

    /// No step changes how many invocations an entry may have.
    ghost calls_stay: { (machine : Self) (request : Request) → most_calls (stepped machine request).1 ≡ most_calls machine };

    /// Each outcome is within these bounds.
    ghost within: { (machine : Self) (request : Request) → IsWithin (most_calls machine) request (stepped machine request).0 };
}
