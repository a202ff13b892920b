ghost use Rattle.std.specs.Prelude.{◌≤◌};

use crate::{
    Failed, FileSource, MemorySink, MemorySource, OutSink, ReadEnd, Sink, Source, read_all,
    write_all,
};
use mm_base::{Bytes, List, NoMemory};
use std::alloc::Global;
use std::io::{Read, Write};
use std::test::Fail;
use std::{fs, io};

// Ten bytes to read, and forty to write.
const TEN: &[u8] = b"ten bytes.";

const FORTY: &[u8] = b"0123456789abcdefghijklmnopqrstuvwxyz.,;:";

fn source(alloc: Global, most: u32, failing: &[u32]) -> Result<MemorySource, NoMemory>
    requires { 1 ≤ most }
{
    let bytes = List::from_slice(alloc, TEN)?;
    let failing = List::from_slice(alloc, failing)?;
    Ok(MemorySource::new(bytes, most, failing))
}

fn sink(alloc: Global, room: usize, most: u32, failing: &[u32]) -> Result<MemorySink, NoMemory> {
    let room = List::from_vec(vec![in alloc; 0u8; room]?);
    let failing = List::from_slice(alloc, failing)?;
    Ok(MemorySink::new(room, most, failing))
}

fn is_ten(read: &Result<Bytes, ReadEnd>) -> bool {
    match read {
        Ok(bytes) => bytes.as_slice() == TEN,
        Err(_) => false,
    }
}

fn end_of(read: &Result<Bytes, ReadEnd>) -> Option<ReadEnd> {
    match read {
        Ok(_) => None,
        Err(end) => Some(*end),
    }
}

// The most a call, the call that fails, the limit; how the reading ends, and the faults then.
const READS: [(u32, &[u32], u32, Option<ReadEnd>, u64); 9] = [
    (1, &[], 10, None, 0),
    (3, &[], 10, None, 0),
    (4_096, &[], 10, None, 0),
    (3, &[0], 10, Some(ReadEnd::Failed), 1),
    (3, &[1], 10, Some(ReadEnd::Failed), 1),
    (3, &[9], 10, None, 0),
    (1, &[], 9, Some(ReadEnd::TooLong), 0),
    (4_096, &[], 9, Some(ReadEnd::TooLong), 0),
    (3, &[], 11, None, 0),
];

#[test]
fn reads_to_the_end(rt: HostRuntime) -> Result<(), Fail> {
    let alloc = rt.alloc();
    for (most, failing, limit, end, faults) in READS {
        assert!(rt; most >= 1);
        let mut source = source(alloc, most, failing)?;
        let read = read_all(alloc, &mut source, limit);
        assert_eq!(rt; end_of(&read), end, "at {most}, {failing:?}, {limit}");
        assert_eq!(rt;
            is_ten(&read),
            end.is_none(),
            "at {most}, {failing:?}, {limit}"
        );
        assert_eq!(rt; source.faults(), faults, "at {most}, {failing:?}, {limit}");
    }
    Ok(())
}

// The room, the most a call, the call that fails; whether all is written, how much is, and the faults then.
const WRITES: [(usize, u32, &[u32], Result<(), Failed>, usize, u64); 5] = [
    (40, 16, &[], Ok(()), 40, 0),
    (41, 1, &[], Ok(()), 40, 0),
    (40, 16, &[1], Err(Failed), 16, 1),
    (7, 4, &[], Err(Failed), 7, 1),
    (40, 0, &[], Err(Failed), 0, 1),
];

#[test]
fn writes_all(rt: HostRuntime) -> Result<(), Fail> {
    let alloc = rt.alloc();
    for (room, most, failing, ended, len, faults) in WRITES {
        let mut sink = sink(alloc, room, most, failing)?;
        let wrote = write_all(&mut sink, FORTY);
        assert_eq!(rt; wrote, ended, "at {room}, {most}, {failing:?}");
        assert_eq!(rt;
            Some(sink.written()),
            FORTY.get(..len),
            "at {room}, {most}, {failing:?}"
        );
        assert_eq!(rt; sink.faults(), faults, "at {room}, {most}, {failing:?}");
    }
    Ok(())
}

/// A reader that gives its bytes, and then errors in place of its end.
#[derive(Drop)]
struct Torn<'a> {
    bytes: &'a [u8],
}

impl Read for Torn<'_> {
    fn read(&mut self, buf: &mut [u8]) -> io::Result<usize> {
        if self.bytes.is_empty() {
            return Err(io::Error::from(io::ErrorKind::ConnectionReset));
        }
        self.bytes.read(buf)
    }
}

fn is_kind(error: Option<io::Error>, kind: io::ErrorKind) -> bool {
    match error {
        Some(error) => error.kind() == kind,
        None => false,
    }
}

#[test]
fn a_reader_is_read(rt: HostRuntime) {
    let mut source = FileSource::new(TEN);
    assert!(rt; is_ten(&read_all(rt.alloc(), &mut source, 10)));
    assert!(rt; source.last_error().is_none());
}

#[test]
fn an_error_is_no_end(rt: HostRuntime) {
    let mut source = FileSource::new(Torn { bytes: TEN });
    let read = read_all(rt.alloc(), &mut source, 10);
    assert_eq!(rt; end_of(&read), Some(ReadEnd::Failed));
    assert_eq!(rt; source.faults(), 1);
    assert!(rt; is_kind(source.last_error(), io::ErrorKind::ConnectionReset));
}

#[test]
fn a_file_is_read(rt: HostRuntime) -> Result<(), Fail> {
    let alloc = rt.alloc();
    let mut source = FileSource::named(&rt, "ten");
    // It is there only now: what isn't read isn't opened.
    fs::write(&rt, "ten", TEN)?;
    assert!(rt; is_ten(&read_all(alloc, &mut source, 10)));
    assert_eq!(rt; source.faults(), 0);
    Ok(())
}

#[test]
fn no_file_is_a_fault(rt: HostRuntime) -> Result<(), Fail> {
    let alloc = rt.alloc();
    let mut source = FileSource::named(&rt, "none");
    let mut buf = [0; 4];
    assert_eq!(rt; source.read(&mut buf), Err(Failed));
    assert_eq!(rt; source.faults(), 1);
    assert!(rt; is_kind(source.last_error(), io::ErrorKind::NotFound));
    assert_eq!(rt;
        end_of(&read_all(alloc, &mut source, 10)),
        Some(ReadEnd::Failed)
    );
    assert_eq!(rt; source.faults(), 2);
    Ok(())
}

#[test]
fn a_folder_is_a_fault(rt: HostRuntime) -> Result<(), Fail> {
    fs::create_dir(&rt, "folder")?;
    let mut source = FileSource::named(&rt, "folder");
    let mut buf = [0; 4];
    assert_eq!(rt; source.read(&mut buf), Err(Failed));
    assert!(rt; is_kind(source.last_error(), io::ErrorKind::IsADirectory));
    Ok(())
}

#[test]
fn writes_out(rt: HostRuntime) {
    let mut sink = OutSink::new(io::writer(&rt));
    assert_eq!(rt; write_all(&mut sink, b"out\n"), Ok(()));
    assert_eq!(rt; sink.faults(), 0);
    assert!(rt; sink.last_error().is_none());
}

/// A writer that takes some bytes a call, and whose flushes may fail.
#[derive(Drop)]
struct Narrow {
    most: usize,
    flushes: bool,
}

impl Write for Narrow {
    fn write(&mut self, buf: &[u8]) -> io::Result<usize> {
        Ok(buf.len().min(self.most))
    }

    fn flush(&mut self) -> io::Result<()> {
        if self.flushes {
            Ok(())
        } else {
            Err(io::Error::from(io::ErrorKind::BrokenPipe))
        }
    }
}

// The most a call, whether flushes succeed; what one write of forty bytes answers, and the kind of the error that is kept.
const ANSWERS: [(usize, bool, Result<usize, Failed>, Option<io::ErrorKind>); 4] = [
    (40, true, Ok(40), None),
    (7, true, Ok(7), None),
    (0, true, Err(Failed), Some(io::ErrorKind::WriteZero)),
    (7, false, Err(Failed), Some(io::ErrorKind::BrokenPipe)),
];

#[test]
fn tells_what_a_writer_took(rt: HostRuntime) {
    for (most, flushes, answer, kind) in ANSWERS {
        let mut sink = OutSink::new(Narrow { most, flushes });
        assert_eq!(rt; sink.write(FORTY), answer, "at {most}, {flushes}");
        let kept = sink.last_error().map(|error| error.kind());
        assert_eq!(rt; kept, kind, "at {most}, {flushes}");
    }
}
