//! What the program says on standard error where a run did not end well.
use crate::cause::Cause;
use crate::reasons::{why_no_policy, why_no_script, why_no_volume};
use mm_base::TextKind;
use mm_run::{BadKind, Command, Status, Which};
use std::io;
use thiserror::Error;

/// What was refused, where, and why.
#[derive(Debug, Drop, Error)]
pub enum Fault<'a> {
    #[error("word {place} of the command line isn't UTF-8")]
    NoText {
        place: usize,
    },
    #[error("usage: mm_main script FILE, mm_main check FILE, mm_main boot FILE, or mm_main serve FILE SCRIPT")]
    Usage,
    #[error("{name:?}, byte {at:#x}: {why}")]
    BadVolume {
        name: &'a str,
        at: u32,
        why: &'static str,
    },
    #[error("{name:?}, byte {at:#x} of the policy in its policy file: {why}")]
    BadPolicy {
        name: &'a str,
        at: u32,
        why: &'static str,
    },
    #[error("{name:?}, line {line}: {why}")]
    BadText {
        name: &'a str,
        line: u32,
        why: &'static str,
    },
    #[error("{name:?} could not be opened or read{cause}")]
    Read {
        name: &'a str,
        cause: Cause,
    },
    #[error("standard output could not be written{cause}")]
    Write {
        cause: Cause,
    },
    #[error("{name:?} has more than {most} bytes")]
    TooLong {
        name: &'a str,
        most: u32,
    },
    #[error("memory was refused")]
    NoMemory,
}

/// What there is to say of a source: its name, and why its last read failed, if one did.
#[derive(Clone, Copy, Debug)]
pub struct SourceFacts<'a> {
    name: &'a str,
    cause: Cause,
}

impl<'a> SourceFacts<'a> {
    pub fn new(name: &'a str, error: Option<io::Error>) -> SourceFacts<'a> {
        SourceFacts {
            name,
            cause: Cause(error),
        }
    }
}

/// What there is to say of a run besides its status.
#[derive(Clone, Copy, Debug)]
pub struct RunFacts<'a> {
    /// The command, if the words are of one.
    pub command: Option<Command>,
    pub first: SourceFacts<'a>,
    pub second: SourceFacts<'a>,
    /// Why the last write failed, if one did.
    pub out: Cause,
}

impl<'a> RunFacts<'a> {
    fn source(&self, which: Which) -> SourceFacts<'a> {
        match which {
            Which::First => self.first,
            Which::Second => self.second,
        }
    }

    /// The most bytes that this source of the command may have.
    fn most_bytes(&self, which: Which) -> u32 {
        match self.command {
            Some(command) => command.source(which).map_or(0, |kind| kind.most_bytes()),
            None => 0,
        }
    }

    /// Whether the text has lines for handlers: a script alone does.
    fn has_handlers(&self) -> bool {
        self.command == Some(Command::Script)
    }

    /// The source that is a text: behind a volume the second one.
    fn text(&self) -> SourceFacts<'a> {
        match self.command {
            Some(Command::Serve) => self.second,
            _ => self.first,
        }
    }
}

impl<'a> Fault<'a> {
    /// What there is to say of a status; None where all went well.
    pub fn of(status: Status, run: &RunFacts<'a>) -> Option<Fault<'a>> {
        match status {
            Status::Done => None,
            Status::Usage => Some(Fault::Usage),
            Status::BadVolume { at, kind } => Some(Fault::of_volume(run.first.name, at, kind)),
            Status::BadText { line, kind } => Some(Fault::of_text(run, line, kind)),
            Status::ReadFault(which) => Some(Fault::of_source(run.source(which))),
            Status::WriteFault => Some(Fault::Write { cause: run.out }),
            Status::TooLong(which) => Some(Fault::TooLong {
                name: run.source(which).name,
                most: run.most_bytes(which),
            }),
            Status::NoMemory(_) => Some(Fault::NoMemory),
        }
    }

    fn of_volume(name: &'a str, at: u32, kind: BadKind) -> Fault<'a> {
        match kind {
            BadKind::Volume(kind) => Fault::BadVolume {
                name,
                at,
                why: why_no_volume(kind),
            },
            BadKind::Policy(kind) => Fault::BadPolicy {
                name,
                at,
                why: why_no_policy(kind),
            },
        }
    }

    fn of_text(run: &RunFacts<'a>, line: u32, kind: TextKind) -> Fault<'a> {
        Fault::BadText {
            name: run.text().name,
            line,
            why: why_no_script(kind, run.has_handlers()),
        }
    }

    fn of_source(source: SourceFacts<'a>) -> Fault<'a> {
        Fault::Read {
            name: source.name,
            cause: source.cause,
        }
    }
}

#[cfg(test)]
mod tests;
