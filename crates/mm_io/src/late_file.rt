//! A file that is opened when it is first read.
ghost use Rattle.std.specs.Prelude.{◌≡◌, OnOk, IsSome};
ghost use Rattle.std.specs.Io.{ReadsAtMost};
ghost use Rattle.std.specs.Io.KnownBytes.{ReadConsumes};
ghost use Rattle.std.specs.Option.{option_and_then};

use std::io::Read;
use std::rt::Files;
use std::{fs, io};

/// A file by its name. Its first read opens it, so one that is never read is never opened. Where it can't be opened, the read
/// fails.
#[derive(Drop)]
pub struct LateFile<'a, R, F> {
    rt: &'a R,
    name: &'a str,
    file: Option<F>,
}

impl<'a, R: Files<File = F>, F> LateFile<'a, R, F> {
    /// The file of this name; it is not opened yet.
    pub(crate) fn new(rt: &'a R, name: &'a str) -> LateFile<'a, R, F>
        ensures { result.file ≡ None }
    {
        LateFile {
            rt,
            name,
            file: None,
        }
    }
}

impl<'a, R: Files<File = F>, F: Read + Drop> Read for LateFile<'a, R, F> {
    ghost remaining = { λ s. option_and_then F.remaining s.file };

    /// Reads from the file, after it was opened. An answer is the file's, and never comes without it.
    fn read(&mut self, buf: &mut [u8]) -> io::Result<usize>
        ensures within { ReadsAtMost result buf.new }
        ensures consumes { ReadConsumes
            (option_and_then F.remaining self.old.file) (option_and_then F.remaining self.new.file) result buf.new }
        ensures opened { OnOk result (IsSome self.new.file) }
    {
        if let Some(file) = &mut self.file {
            return file.read(buf);
        }
        let mut file = fs::open(self.rt, self.name)?;
        let answer = file.read(buf);
        self.file = Some(file);
        answer
    }
}
