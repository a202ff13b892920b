//! Writing all of some bytes to a sink.
ghost use Rattle.std.specs.Prelude.{◌≤◌, OnOk, OnErr};
ghost use Rattle.mm_io.specs.Causes.{Rose};
ghost use Rattle.mm_io.specs.Streams.{Appends, AppendsFront};

use crate::{Failed, Sink};

/// Writes all the bytes, in as many pieces as the sink takes them in. A sink that takes nothing has failed.
/// Where it fails, a front of the bytes was written, and not all of them.
/// It takes no memory, and makes at most one call for each byte.
pub fn write_all<K: Sink>(sink: &mut K, bytes: &[u8]) -> Result<(), Failed>
    ensures ok { OnOk result (Appends (K.written sink.old) (K.written sink.new) bytes.now) }
    ensures failed { OnErr result (Rose (K.fault_count sink.old) (K.fault_count sink.new)) }
    ensures front { OnErr result (AppendsFront (K.written sink.old) (K.written sink.new) bytes.now) }
    ensures later { K.fault_count sink.old ≤ K.fault_count sink.new }
{
    let mut done = 0;
    while done < bytes.len() {
        let (_, rest) = bytes.split_at(done);
        let count = sink.write(rest)?;
        if count == 0 {
            return Err(Failed);
        }
        done += count;
    }
    Ok(())
}
