//! A writer as a sink: the edge where the system is trusted.
ghost use Rattle.std.specs.Prelude.{◌≡◌, ◌≤◌, length, IfOk, OnOk, OnErr, IsSome};
ghost use Rattle.mm_io.specs.Causes.{HasCause};
ghost use Rattle.mm_io.specs.Edges.{GrowsBy, GrowsByFront};
ghost use Rattle.mm_io.specs.Memory.{one_more};
ghost use Rattle.mm_io.specs.Streams.{IsNothing};

use crate::faults::Faults;
use crate::{Failed, Sink};
use std::io;
use std::io::Write;
use std::marker::Model;

/// A writer such as `io::writer(&rt)`, the standard output, whose errors are faults. It tells no bytes, since of standard output
/// none are known.
#[derive(Drop)]
pub struct OutSink<W> {
    writer: W,
    faults: Faults,
}

impl<W> Model for OutSink<W> {
    ghost use Rattle.mm_io.specs.Edges.{WriterState};

    ghost Value = { WriterState W };

    ghost view = { λ s. record { writer = s.writer; faults = s.faults } };
}

impl<W> OutSink<W> {
    /// A sink over this writer.
    pub fn new(writer: W) -> OutSink<W>
        ensures { result ≡ record { writer = writer; faults = record { count = 0; last = None } } }
    {
        OutSink {
            writer,
            faults: Faults::none(),
        }
    }

    /// The error of the last write that failed.
    pub fn last_error(&self) -> Option<io::Error>
        ensures { result ≡ self.now.faults.last }
    {
        self.faults.last
    }
}

impl<W: Write> Sink for OutSink<W> {
    ghost use Rattle.std.specs.Prelude.{None};

    ghost written = { λ _. None };

    ghost fault_count = { λ s. s.faults.count };

    /// Writes once to the writer, and flushes it. A flush that fails is a fault too, and so is a write that takes nothing. What the
    /// trait says of bytes that a sink tells is no clause here, since this one tells none.
    fn write(&mut self, bytes: &[u8]) -> Result<usize, Failed>
        ensures within { IfOk result (λ n. n ≤ length bytes.now) }
        ensures nothing { IsNothing result bytes.now → ⊥ }
        ensures cause { HasCause self.old.faults.count self.new.faults.count result }

        // What was taken is what the writer has more; where a flush failed, it may have taken some.
        ensures appends { IfOk result (GrowsBy (W.contents self.old.writer) (W.contents self.new.writer) bytes.now) }
        ensures front { OnErr result (GrowsByFront (W.contents self.old.writer) (W.contents self.new.writer) bytes.now) }

        // An error is the writer's, and is kept and counted.
        ensures ok { OnOk result (self.new.faults ≡ self.old.faults) }
        ensures counts { OnErr result (self.new.faults.count ≡ one_more self.old.faults.count) }
        ensures kept { OnErr result (IsSome self.new.faults.last) }
    {
        let answer = written_through(&mut self.writer, bytes);
        self.faults.told(answer)
    }

    fn faults(&self) -> u64 {
        self.faults.count
    }
}

/// Writes some of the bytes, at least one where there are any, and sees to it that they are out.
fn written_through<W: Write>(out: &mut W, bytes: &[u8]) -> io::Result<usize>
    ensures within { IfOk result (λ n. n ≤ length bytes.now) }
    ensures nothing { IsNothing result bytes.now → ⊥ }
    ensures appends { IfOk result (GrowsBy (W.contents out.old) (W.contents out.new) bytes.now) }
    ensures front { OnErr result (GrowsByFront (W.contents out.old) (W.contents out.new) bytes.now) }
{
    let count = out.write(bytes)?;
    if count == 0 && !bytes.is_empty() {
        return Err(io::Error::from(io::ErrorKind::WriteZero));
    }
    out.flush()?;
    Ok(count)
}
