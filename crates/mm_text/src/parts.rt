//! What a report tells of.
ghost use Rattle.std.specs.Prelude.{◌≡◌};
ghost use Rattle.mm_text.specs.Report.{reported, nothing_reported};

use driver_start::StartRecord;
use mm_base::{Entries, Guid, List, Policy, Volume};
use mm_core::FileWord;

/// What is there at lock.
#[derive(Debug, Drop)]
pub struct Locked {
    /// The name of each image, in their order.
    pub names: List<Guid>,
    /// How many handlers there are.
    pub handlers: u32,
    /// How many protocols there are: an interface on a handle is one.
    pub protocols: u32,
}

/// What a command reports. The report has the lines of the parts that are there.
#[derive(Clone, Copy)]
pub struct Parts<'a> {
    /// The volume.
    pub volume: Option<&'a Volume>,
    /// What each of its files is taken for.
    pub words: Option<&'a List<FileWord>>,
    /// The policy of a boot. It is told where the starts are.
    pub policy: Option<&'a Policy>,
    /// The starts of drivers, in their order.
    pub starts: Option<&'a List<StartRecord>>,
    /// The names of the drivers that were never scheduled, in the order of the volume.
    pub waiting: Option<&'a List<Guid>>,
    /// What is there at lock.
    pub locked: Option<&'a Locked>,
    /// Whether the group of each image alone is closed: a flag for each name there at lock, in their order.
    pub closed: Option<&'a List<bool>>,
    /// The entries, in recorded order.
    pub entries: Option<&'a Entries>,
    /// All words of each lane: the length, the status, and then the data.
    pub lanes: Option<&'a List<List<u64>>>,
}

impl<'a> Parts<'a> {
    /// No part at all. A command names the parts that it has, and takes the others from here:
    /// `Parts { volume: Some(&volume), ..Parts::none() }`.
    pub fn none() -> Parts<'a>
        ensures { reported result ≡ nothing_reported }
    {
        Parts {
            volume: None,
            words: None,
            policy: None,
            starts: None,
            waiting: None,
            locked: None,
            closed: None,
            entries: None,
            lanes: None,
        }
    }
}
