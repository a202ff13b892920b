//! The faults of an edge, where the system is trusted.
ghost use Rattle.std.specs.Prelude.{◌≡◌};
ghost use Rattle.mm_io.specs.Causes.{HasCause};
ghost use Rattle.mm_io.specs.Edges.{told_answer, faults_after};

use crate::Failed;
use std::io;

/// How many faults came, and the error that was the last one.
#[derive(Clone, Copy, Debug, Drop)]
pub(crate) struct Faults {
    pub(crate) count: u64,
    pub(crate) last: Option<io::Error>,
}

impl Faults {
    /// No fault came yet.
    pub(crate) fn none() -> Faults
        ensures { result ≡ record { count = 0; last = None } }
    {
        Faults {
            count: 0,
            last: None,
        }
    }

    /// What is told of a reader's or a writer's answer: its count; or, of an error, that there was one. An error is kept and
    /// counted.
    pub(crate) fn told(&mut self, answer: io::Result<usize>) -> Result<usize, Failed>
        ensures answer { result ≡ told_answer answer }
        ensures after { self.new ≡ faults_after self.old answer }
        ensures cause { HasCause self.old.count self.new.count result }
    {
        match answer {
            Ok(count) => Ok(count),
            Err(error) => {
                self.count = self.count.saturating_add(1);
                self.last = Some(error);
                Err(Failed)
            }
        }
    }
}
