//! A bus over one run of bytes.
ghost use Rattle.std.specs.Prelude.{◌≡◌, ◌+◌, ◌-◌, ◌≤◌, ◌<◌, not, ◌&&◌, if◌then◌else◌, length, IfSome};
ghost use Rattle.mm_base.specs.Bus.{IsAccessWidth};
ghost use Rattle.mm_base.specs.Numbers.{low_bytes, overwritten};
ghost use Rattle.ebc_machine.specs.Flat.{place_in, out_of_range, front_from};

use crate::jumps::is_odd;
use mm_base::status::UNSUPPORTED;
use mm_base::{Bus, Bytes, Denial, Kind, List, Right, Served, Target, Why, number_at};
use std::marker::Model;

/// How many bytes a fetch answers.
const FETCHED: usize = 18;

/// A bus over bytes that stand from an address on, for tests and laws. An access that lies in them passes; every other one is denied as
/// out of range. There are no services, which answer UNSUPPORTED; an even address where two bytes lie is code.
#[derive(Debug, Drop)]
pub struct FlatBus {
    base: u64,
    bytes: Vec<u8>,
}

impl Model for FlatBus {
    ghost use Rattle.ebc_machine.specs.Flat.{FlatState};

    ghost Value = { FlatState };

    ghost view = { λ f. record { base = f.base; bytes = f.bytes.items } };
}

impl FlatBus {
    /// These bytes, the first of which stands at this address.
    pub fn new(base: u64, bytes: Bytes) -> FlatBus
        ensures { result ≡ record { base = base; bytes = bytes } }
    {
        FlatBus {
            base,
            bytes: bytes.into_vec(),
        }
    }

    /// The bytes.
    pub fn bytes(&self) -> &[u8]
        ensures { result.now ≡ self.now.bytes }
    {
        self.bytes.as_slice()
    }

    /// The bytes, taken out.
    pub fn into_bytes(self) -> Bytes
        ensures { result ≡ self.bytes }
    {
        let FlatBus { bytes, .. } = self;
        List::from_vec(bytes)
    }

    /// Where `n` bytes from an address stand, if they lie in the bytes.
    #[inline(always)]
    fn place(&self, at: u64, n: u8) -> Option<usize>
        ensures value { result ≡ place_in self.now at n }
        ensures within { IfSome result (λ place. place + n ≤ length self.now.bytes) }
    {
        if at < self.base {
            return None;
        }
        let place = at - self.base;
        let count = self.bytes.len() as u64;
        if (n as u64) <= count && place <= count - n as u64 {
            Some(place as usize)
        } else {
            None
        }
    }
}

/// An access to memory that is out of range.
#[inline(always)]
fn denial(right: Right, at: u64, n: u8) -> Denial
    ensures { result ≡ out_of_range right at n }
{
    Denial {
        kind: Kind::Memory,
        right,
        at,
        n,
        why: Why::Range,
    }
}

/// The 18 bytes from a place on; those past the end are 0.
#[inline(always)]
fn front(bytes: &[u8], place: usize) -> [u8; FETCHED]
    requires { place ≤ length bytes.now }
    ensures { result ≡ front_from bytes.now place }
{
    if bytes.len() - place < FETCHED {
        return last_bytes(bytes, place);
    }
    let (_, rest) = bytes.split_at(place);
    let (front, _) = rest.split_at(FETCHED);
    let mut all = [0; FETCHED];
    all.copy_from_slice(front);
    all
}

/// The bytes from a place on, fewer than 18 of them, and zeros.
#[inline(never)]
fn last_bytes(bytes: &[u8], place: usize) -> [u8; FETCHED]
    requires there { place ≤ length bytes.now }
    requires few { length bytes.now - place < 18 }
    ensures { result ≡ front_from bytes.now place }
{
    let mut all = [0; FETCHED];
    let (_, rest) = bytes.split_at(place);
    all[..rest.len()].copy_from_slice(rest);
    all
}

/// What stands at an address, by whether it is odd and whether two bytes lie there.
#[inline(always)]
fn target_where(odd: bool, there: bool) -> Target
    ensures { result ≡ (if not odd && there then Target.Code else Target.Other) }
{
    if !odd && there {
        Target::Code
    } else {
        Target::Other
    }
}

/// Writes the `n` low bytes of a number at a place.
#[inline(always)]
fn overwrite(bytes: &mut [u8], place: usize, n: u8, value: u64)
    requires width { IsAccessWidth n }
    requires within { place + n ≤ length bytes.old }
    ensures { bytes.new ≡ overwritten bytes.old place (low_bytes n value) }
{
    let all = value.to_le_bytes();
    let (piece, _) = all.split_at(n as usize);
    bytes[place..place + piece.len()].copy_from_slice(piece);
}

impl Bus for FlatBus {
    ghost use Rattle.std.specs.Prelude.{false};
    ghost use Rattle.ebc_machine.specs.Flat.{flat_meaning};

    ghost meaning = { flat_meaning };

    ghost may_refuse = { false };

    #[inline(always)]
    fn fetch(&mut self, at: u64, n: u8) -> Result<[u8; 18], Denial> {
        match self.place(at, n) {
            Some(place) => Ok(front(self.bytes.as_slice(), place)),
            None => Err(denial(Right::Execute, at, n)),
        }
    }

    #[inline(always)]
    fn read(&mut self, at: u64, n: u8) -> Result<u64, Denial> {
        match self.place(at, n) {
            Some(place) => Ok(number_at(self.bytes.as_slice(), place, n)),
            None => Err(denial(Right::Read, at, n)),
        }
    }

    #[inline(always)]
    fn write(&mut self, at: u64, n: u8, value: u64) -> Result<(), Denial> {
        match self.place(at, n) {
            Some(place) => {
                overwrite(self.bytes.as_mut_slice(), place, n, value);
                Ok(())
            }
            None => Err(denial(Right::Write, at, n)),
        }
    }

    #[inline(always)]
    fn target(&self, at: u64) -> Target {
        target_where(is_odd(at), self.place(at, 2).is_some())
    }

    fn service(&mut self, _number: u8, _stack: u64) -> Served {
        Served::Status(UNSUPPORTED)
    }
}
