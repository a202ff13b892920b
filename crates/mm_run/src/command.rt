//! The commands that the program serves.
ghost use Rattle.std.specs.Prelude.{◌≡◌};
ghost use Rattle.mm_run.specs.Command.{command_of as command_of_words};
ghost use Rattle.mm_run.specs.Sources.{sources_of, kind_of_which};

use crate::source_kind::SourceKind;
use crate::status::Which;

/// A command, by the first word of the command line. The words after it name its sources.
#[derive(Clone, Copy, Debug, PartialEq, Eq)]
pub enum Command {
    /// `script`: a world is driven through a script.
    Script,
    /// `check`: a firmware volume is read, and its files are listed.
    Check,
    /// `boot`: the drivers of a firmware volume are started, and what they did is told.
    Boot,
    /// `serve`: a firmware volume is booted, and a world is driven through a script from the core that the boot leaves.
    Serve,
}

impl Command {
    /// The kind of the command's first or second source; None where it has none.
    pub fn source(self, which: Which) -> Option<SourceKind>
        ensures { result ≡ kind_of_which which (sources_of self) }
    {
        match (self, which) {
            (Command::Script, Which::First) => Some(SourceKind::ScriptText),
            (Command::Check | Command::Boot | Command::Serve, Which::First) => {
                Some(SourceKind::VolumeBytes)
            }
            (Command::Serve, Which::Second) => Some(SourceKind::EventsText),
            (_, Which::Second) => None,
        }
    }
}

/// The command of these words; None where they are no form that is served.
pub fn command_of(words: &[String]) -> Option<Command>
    ensures { result ≡ command_of_words words.now }
{
    match words {
        [name, _] => match name.as_str() {
            "script" => Some(Command::Script),
            "check" => Some(Command::Check),
            "boot" => Some(Command::Boot),
            _ => None,
        },
        [name, _, _] => match name.as_str() {
            "serve" => Some(Command::Serve),
            _ => None,
        },
        _ => None,
    }
}
