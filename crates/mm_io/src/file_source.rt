//! A reader as a source: the edge where the system is trusted.
ghost use Rattle.std.specs.Prelude.{◌≡◌, ◌≤◌, length, IfOk, OnOk, OnErr, IsSome};
ghost use Rattle.std.specs.Io.KnownBytes.{ReadConsumes};
ghost use Rattle.mm_io.specs.Causes.{HasCause};
ghost use Rattle.mm_io.specs.Memory.{one_more};

use crate::faults::Faults;
use crate::late_file::LateFile;
use crate::{Failed, Source};
use std::io;
use std::io::Read;
use std::marker::Model;
use std::rt::Files;

/// A reader such as a file, whose errors are faults. It tells no bytes, since of a file none are known.
#[derive(Drop)]
pub struct FileSource<R> {
    reader: R,
    faults: Faults,
}

impl<R> Model for FileSource<R> {
    ghost use Rattle.mm_io.specs.Edges.{ReaderState};

    ghost Value = { ReaderState R };

    ghost view = { λ s. record { reader = s.reader; faults = s.faults } };
}

impl<R> FileSource<R> {
    /// A source over this reader.
    pub fn new(reader: R) -> FileSource<R>
        ensures { result ≡ record { reader = reader; faults = record { count = 0; last = None } } }
    {
        FileSource {
            reader,
            faults: Faults::none(),
        }
    }

    /// The error of the last read that failed.
    pub fn last_error(&self) -> Option<io::Error>
        ensures { result ≡ self.now.faults.last }
    {
        self.faults.last
    }
}

impl<'a, R: Files<File = F>, F> FileSource<LateFile<'a, R, F>> {
    /// The file of this name. It is opened at the first read, and a read fails where it can't be.
    pub fn named(rt: &'a R, name: &'a str) -> FileSource<LateFile<'a, R, F>>
        ensures { result.reader.file ≡ None }
    {
        FileSource::new(LateFile::new(rt, name))
    }
}

impl<R: Read> Source for FileSource<R> {
    ghost use Rattle.std.specs.Prelude.{None};

    ghost left = { λ _. None };

    ghost fault_count = { λ s. s.faults.count };

    /// Reads once from the reader. What the trait says of bytes that a source tells is no clause here, since this one tells none.
    fn read(&mut self, buf: &mut [u8]) -> Result<usize, Failed>
        ensures within { IfOk result (λ n. n ≤ length buf.old) }
        ensures cause { HasCause self.old.faults.count self.new.faults.count result }

        // What was given is what the reader consumed; 0 for a buffer that isn't empty says that it was at its end.
        ensures consumes { ReadConsumes (R.remaining self.old.reader) (R.remaining self.new.reader) result buf.new }

        // An error is the reader's, and is kept and counted.
        ensures ok { OnOk result (self.new.faults ≡ self.old.faults) }
        ensures counts { OnErr result (self.new.faults.count ≡ one_more self.old.faults.count) }
        ensures kept { OnErr result (IsSome self.new.faults.last) }
    {
        let answer = self.reader.read(buf);
        self.faults.told(answer)
    }

    fn faults(&self) -> u64 {
        self.faults.count
    }
}
