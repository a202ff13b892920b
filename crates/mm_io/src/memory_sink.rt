//! A sink in memory, whose faults are planned.
ghost use Rattle.std.specs.Prelude.{◌≡◌, ◌+◌, ◌-◌, ◌≤◌, [], ◌++◌, length, take, min, IfOk, OnErr};
ghost use Rattle.mm_io.specs.Causes.{HasCause, Rose};
ghost use Rattle.mm_io.specs.Memory.{write_answer, intake_after};
ghost use Rattle.mm_io.specs.Streams.{Appends, IsNothing};

use crate::planned::Planned;
use crate::{Failed, Sink};
use mm_base::{Bytes, List};
use std::marker::Model;

/// A room that is written over from its front.
#[derive(Debug, Drop)]
pub struct MemorySink {
    room: Vec<u8>,
    len: usize,
    most: u32,
    plan: Planned,
}

impl Model for MemorySink {
    ghost use Rattle.std.specs.Prelude.{◌≤◌, length, take, vec_len};
    ghost use Rattle.mm_io.specs.Memory.{Intake, intake_code};

    ghost Value = { Intake };

    ghost coded = { intake_code };

    ghost view = { λ s. record { written = take s.len s.room.items; room = vec_len s.room; most = s.most; failing = s.plan.failing; calls = s.plan.calls; faults = s.plan.faults } };

    ghost invariant = { λ s. s.len ≤ vec_len s.room };
}

impl MemorySink {
    /// A sink that writes over these bytes, takes at most so many a call, and none past their end. The calls of
    /// `write` with a number in the list, counted from 0, fail. It takes no memory.
    pub fn new(room: Bytes, most: u32, failing: List<u32>) -> MemorySink
        ensures { result ≡ record { written = []; room = length room; most = most; failing = failing; calls = 0; faults = 0 } }
    {
        MemorySink {
            room: room.into_vec(),
            len: 0,
            most,
            plan: Planned::new(failing),
        }
    }

    /// The bytes that were written.
    pub fn written(&self) -> &[u8]
        ensures { result.now ≡ self.now.written }
    {
        let (front, _) = self.room.as_slice().split_at(self.len);
        front
    }
}

impl Sink for MemorySink {
    ghost use Rattle.std.specs.Prelude.{Some};

    ghost written = { λ s. Some s.written };

    ghost fault_count = { λ s. s.faults };

    fn write(&mut self, bytes: &[u8]) -> Result<usize, Failed>
        ensures within { IfOk result (λ n. n ≤ length bytes.now) }
        ensures appends { IfOk result (λ n. Appends (Some self.old.written) (Some self.new.written) (take n bytes.now)) }
        ensures nothing { IsNothing result bytes.now → Rose self.old.faults self.new.faults }
        ensures unchanged { OnErr result (Some self.new.written ≡ Some self.old.written) }
        ensures cause { HasCause self.old.faults self.new.faults result }
        ensures answer { result ≡ write_answer self.old (length bytes.now) }
        ensures after { self.new ≡ intake_after self.old bytes.now }
    {
        if self.plan.fails_now() {
            return Err(Failed);
        }
        let count = copy_at(bytes, self.most as usize, &mut self.room, self.len);
        self.len += count;
        if count == 0 && !bytes.is_empty() {
            self.plan.raise();
        }
        Ok(count)
    }

    fn faults(&self) -> u64 {
        self.plan.faults
    }
}

/// Copies bytes over a room from a place on, as many as there is room for and at most so many, and says how many.
fn copy_at(from: &[u8], most: usize, room: &mut Vec<u8>, at: usize) -> usize
    requires { at ≤ length room.old.items }
    ensures count { result ≡ min (min (length from.now) (length room.old.items - at)) most }
    ensures written { take (at + result) room.new.items ≡ take at room.old.items ++ take result from.now }
    ensures kept { length room.new.items ≡ length room.old.items }
{
    let count = from.len().min(room.len() - at).min(most);
    let (piece, _) = from.split_at(count);
    room[at..at + count].copy_from_slice(piece);
    count
}
