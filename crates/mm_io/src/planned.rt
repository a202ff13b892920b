//! The plan of faults of a source or a sink in memory.
ghost use Rattle.std.specs.Prelude.{◌≡◌, ◌≤◌, IsTrue, if◌then◌else◌};
ghost use Rattle.mm_io.specs.Causes.{Rose};
ghost use Rattle.mm_io.specs.Memory.{is_planned, one_more};

use mm_base::List;

/// Which calls fail, how many were made, and how many faults came.
#[derive(Debug, Drop)]
pub(crate) struct Planned {
    pub(crate) failing: List<u32>,
    pub(crate) calls: u64,
    pub(crate) faults: u64,
}

impl Planned {
    /// No call was made yet; those with a number in the list, counted from 0, will fail.
    pub(crate) fn new(failing: List<u32>) -> Planned
        ensures { result ≡ record { failing = failing; calls = 0; faults = 0 } }
    {
        Planned {
            failing,
            calls: 0,
            faults: 0,
        }
    }

    /// Counts a fault.
    pub(crate) fn raise(&mut self)
        ensures later { self.old.faults ≤ self.new.faults }
        ensures rose { Rose self.old.faults self.new.faults }
        ensures counts { self.new ≡ record self.old { faults = one_more self.old.faults } }
    {
        self.faults = self.faults.saturating_add(1);
    }

    /// Counts a call, and says whether it is one that fails; then it counts the fault too.
    /// The cost is one look at each number of the list.
    pub(crate) fn fails_now(&mut self) -> bool
        ensures answer { result ≡ is_planned self.old.failing self.old.calls }
        ensures later { self.old.faults ≤ self.new.faults }
        ensures rose { IsTrue result → Rose self.old.faults self.new.faults }
        ensures counts { self.new ≡ record self.old {
          calls = one_more self.old.calls;
          faults = if result then one_more self.old.faults else self.old.faults;
        } }
    {
        let call = self.calls;
        let fails = self.is_failing(call);
        self.calls = call.saturating_add(1);
        if fails {
            self.raise();
        }
        fails
    }

    /// Whether the call with this number fails.
    fn is_failing(&self, call: u64) -> bool
        ensures { result ≡ is_planned self.now.failing call }
    {
        self.failing
            .as_slice()
            .iter()
            .any(|k| u64::from(*k) == call)
    }
}
