//! How a run ended.
ghost use Rattle.std.specs.Prelude.{◌≡◌};
ghost use Rattle.mm_run.specs.Status.{number_of_status, status_of_read};

use mm_base::{End, NoMemory, PolicyKind, TextKind, VolumeKind};
use mm_core::BootEnd;
use mm_io::ReadEnd;
use mm_text::TextEnd;
use volume_reader::VolumeEnd;

/// The two sources that a form may name.
#[derive(Clone, Copy, Debug, PartialEq, Eq)]
pub enum Which {
    /// The script or the volume.
    First,
    /// The script beside a volume.
    Second,
}

/// What of a volume is refused.
#[derive(Clone, Copy, Debug, PartialEq, Eq)]
pub enum BadKind {
    /// The volume itself, for this. The place counts in the volume.
    Volume(VolumeKind),
    /// The policy in its policy file, for this. The place counts in the policy.
    Policy(PolicyKind),
}

/// How a run ended. Its number is the program's exit status.
#[derive(Clone, Copy, Debug, PartialEq, Eq)]
pub enum Status {
    /// The sources were read to their ends, and the report was written whole.
    Done,
    /// The words are no form that the program serves.
    Usage,
    /// The volume is refused, or its policy, at this place, counted in bytes from 0.
    BadVolume { at: u32, kind: BadKind },
    /// The text of a source is refused at this line, counted from 1.
    BadText { line: u32, kind: TextKind },
    /// A source could not be read.
    ReadFault(Which),
    /// The report could not be written, or only a front of it.
    WriteFault,
    /// A source has more bytes than it may.
    TooLong(Which),
    /// A growth was refused.
    NoMemory(NoMemory),
}

impl Status {
    /// The exit status: 0 where all went well.
    pub fn number(&self) -> u8
        ensures { result ≡ number_of_status self.now }
    {
        match self {
            Status::Done => 0,
            Status::Usage => 1,
            Status::BadVolume { .. } => 2,
            Status::BadText { .. } => 3,
            Status::ReadFault(_) => 4,
            Status::WriteFault => 5,
            Status::TooLong(_) => 6,
            Status::NoMemory(_) => 7,
        }
    }

    /// The status of a source that was not read whole.
    pub fn of_read(end: ReadEnd, which: Which) -> Status
        ensures { result ≡ status_of_read end which }
    {
        match end {
            ReadEnd::Failed => Status::ReadFault(which),
            ReadEnd::TooLong => Status::TooLong(which),
            ReadEnd::NoMemory(refused) => Status::NoMemory(refused),
        }
    }
}

impl From<NoMemory> for Status {
    ghost use Rattle.mm_run.specs.declared.status.Status.TheVariants.{NoMemory as OutOfMemory};

    ghost from_gives = { λ refused status. status ≡ OutOfMemory refused };

    fn from(refused: NoMemory) -> Self {
        Status::NoMemory(refused)
    }
}

impl From<TextEnd> for Status {
    ghost use Rattle.mm_run.specs.Status.{status_of_text};

    ghost from_gives = { λ end status. status ≡ status_of_text end };

    fn from(end: TextEnd) -> Self {
        match end {
            End::Fault(fault) => Status::BadText {
                line: fault.line,
                kind: fault.kind,
            },
            End::NoMemory(refused) => Status::NoMemory(refused),
        }
    }
}

impl From<VolumeEnd> for Status {
    ghost use Rattle.mm_run.specs.Status.{status_of_volume};

    ghost from_gives = { λ end status. status ≡ status_of_volume end };

    fn from(end: VolumeEnd) -> Self {
        match end {
            End::Fault(fault) => Status::BadVolume {
                at: fault.at,
                kind: BadKind::Volume(fault.kind),
            },
            End::NoMemory(refused) => Status::NoMemory(refused),
        }
    }
}

impl From<BootEnd> for Status {
    ghost use Rattle.mm_run.specs.Status.{status_of_policy};

    ghost from_gives = { λ end status. status ≡ status_of_policy end };

    fn from(end: BootEnd) -> Self {
        match end {
            End::Fault(fault) => Status::BadVolume {
                at: fault.at,
                kind: BadKind::Policy(fault.kind),
            },
            End::NoMemory(refused) => Status::NoMemory(refused),
        }
    }
}
