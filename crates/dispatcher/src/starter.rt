//! What starts drivers.
ghost use Rattle.std.specs.Prelude.{◌≡◌, ℕ, Bool, OnOk};
ghost use Rattle.mm_base.specs.declared.guid.Guid.{Guid as GuidValue};

use depex::Installed;
use mm_base::NoMemory;

/// Whatever starts drivers, and knows which protocols are installed. Its meaning is a state, and what a start makes of a state.
pub trait Starter: Installed {
    /// What a state is.
    ghost State: { Type 0 };

    /// The state that it is in.
    ghost state: { Self → State };

    /// Whether the protocol with a GUID is installed in a state.
    ghost installed_in: { State → GuidValue → Bool };

    /// The state that the start of the driver with an index leaves, in a round.
    ghost started: { State → ℕ → ℕ → State };

    /// Starts the driver with this index, in this round. A start that fails is one that leaves such a state; Err says that memory
    /// was refused.
    fn start(&mut self, index: u32, round: u32) -> Result<(), NoMemory>
        ensures { OnOk result (state self.new ≡ started (state self.old) index round) };

    /// What is installed follows from the state.
    ghost agrees: { (starter : Self) (guid : GuidValue) → Self.Installed.installed starter guid ≡ installed_in (state starter) guid };
}
