//! Drivers, and their starts.
ghost use Rattle.std.specs.Prelude.{◌≡◌};
ghost use Rattle.dispatcher.specs.Drivers.{member_of};

use depex::Depex;
use mm_base::Guid;

/// A driver that may be started.
#[derive(Debug, Drop)]
pub struct Driver {
    /// The number that its starter knows it by.
    pub index: u32,
    /// Its name.
    pub name: Guid,
    /// Its dependency expression. A driver without one is never scheduled.
    pub depex: Option<Depex>,
}

/// A start that was made.
#[derive(Clone, Copy, Debug, PartialEq, Eq)]
pub struct Started {
    /// The number of the driver.
    pub index: u32,
    /// The round, counted from 1.
    pub round: u32,
}

/// What of a driver takes part in a round.
#[derive(Clone, Copy, Debug, PartialEq, Eq)]
pub(crate) struct Member {
    /// The number of the driver.
    pub(crate) index: u32,
    /// Its name.
    pub(crate) name: Guid,
}

impl Driver {
    /// What of it takes part in a round.
    pub(crate) fn member(&self) -> Member
        ensures { result ≡ member_of self.now }
    {
        Member {
            index: self.index,
            name: self.name,
        }
    }
}
