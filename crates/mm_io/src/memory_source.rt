//! A source in memory, whose faults are planned.
ghost use Rattle.std.specs.Prelude.{◌≡◌, ◌≤◌, ◌<◌, length, take, min, IfOk, OnErr};
ghost use Rattle.mm_io.specs.Causes.{HasCause};
ghost use Rattle.mm_io.specs.Memory.{read_answer, supply_after};
ghost use Rattle.mm_io.specs.Streams.{Gives, IsUsedUp, IsNothing};

use crate::planned::Planned;
use crate::{Failed, Source};
use mm_base::{Bytes, List};
use std::marker::Model;

/// Bytes in memory, given in pieces.
#[derive(Debug, Drop)]
pub struct MemorySource {
    bytes: Bytes,
    at: usize,
    most: u32,
    plan: Planned,
}

impl Model for MemorySource {
    ghost use Rattle.std.specs.Prelude.{◌≤◌, length, drop};
    ghost use Rattle.mm_io.specs.Memory.{Supply, supply_code};

    ghost Value = { Supply };

    ghost coded = { supply_code };

    ghost view = { λ s. record { left = drop s.at s.bytes; most = s.most; failing = s.plan.failing; calls = s.plan.calls; faults = s.plan.faults } };

    ghost invariant = { λ s. (s.at ≤ length s.bytes) × (1 ≤ s.most) };
}

impl MemorySource {
    /// A source of these bytes, which gives at most so many a call. The calls of `read` with a number in the
    /// list, counted from 0, fail. It takes no memory.
    pub fn new(bytes: Bytes, most: u32, failing: List<u32>) -> MemorySource
        requires { 1 ≤ most }
        ensures { result ≡ record { left = bytes; most = most; failing = failing; calls = 0; faults = 0 } }
    {
        MemorySource {
            bytes,
            at: 0,
            most,
            plan: Planned::new(failing),
        }
    }
}

impl Source for MemorySource {
    ghost use Rattle.std.specs.Prelude.{Some};

    ghost left = { λ s. Some s.left };

    ghost fault_count = { λ s. s.faults };

    fn read(&mut self, buf: &mut [u8]) -> Result<usize, Failed>
        ensures within { IfOk result (λ n. n ≤ length buf.old) }
        ensures gives { IfOk result (λ n. Gives (Some self.old.left) (Some self.new.left) (take n buf.new)) }
        ensures end { IsNothing result buf.old → IsUsedUp (Some self.old.left) }
        ensures unchanged { OnErr result (Some self.new.left ≡ Some self.old.left) }
        ensures cause { HasCause self.old.faults self.new.faults result }
        ensures answer { result ≡ read_answer self.old (length buf.old) }
        ensures after { self.new ≡ supply_after self.old (length buf.old) }
    {
        if self.plan.fails_now() {
            return Err(Failed);
        }
        let (_, rest) = self.bytes.as_slice().split_at(self.at);
        let count = copy_front(rest, self.most as usize, buf);
        self.at += count;
        Ok(count)
    }

    fn faults(&self) -> u64 {
        self.plan.faults
    }
}

/// Copies as many bytes as both have place for, at most so many, and says how many.
fn copy_front(from: &[u8], most: usize, to: &mut [u8]) -> usize
    ensures count { result ≡ min (min (length from.now) (length to.old)) most }
    ensures front { take result to.new ≡ take result from.now }
{
    let count = from.len().min(to.len()).min(most);
    let (piece, _) = from.split_at(count);
    to[..count].copy_from_slice(piece);
    count
}
