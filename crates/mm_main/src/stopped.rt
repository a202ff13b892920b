//! The command line, and what stops the program before its top call.
ghost use Rattle.std.specs.Prelude.{◌≡◌, ℕ};
ghost use Rattle.mm_base.specs.End.{out_of_memory};
ghost use Rattle.mm_run.specs.Status.{number_of_status};
ghost use Rattle.mm_run.specs.declared.status.Status.TheVariants.{Usage, NoMemory as OutOfMemory};

use crate::fault::Fault;
use mm_base::NoMemory;
use std::alloc::Global;
use std::env::FillError;
use std::rt::Env;
use std::{env, io, str};

// The room for a word that is looked at again, which grows where a word is longer.
const WORD_ROOM: usize = 4_096;

/// What stops the program before its top call.
#[derive(Clone, Copy, Debug, PartialEq, Eq)]
pub enum Stopped {
    /// The word at this place of the command line is no text. The program's own name is word 0.
    NoText(usize),
    /// A growth was refused while the command line was read.
    NoMemory,
}

impl Stopped {
    /// The exit status: that of faulty words, or that of out of memory.
    pub fn number(self) -> u8
        ensures usage { (place : ℕ) → self ≡ Stopped.NoText place → result ≡ number_of_status Usage }
        ensures memory { self ≡ Stopped.NoMemory → result ≡ number_of_status (OutOfMemory out_of_memory) }
    {
        match self {
            Stopped::NoText(_) => 1,
            Stopped::NoMemory => 7,
        }
    }

    /// What there is to say of it.
    pub fn fault(self) -> Fault<'static> {
        match self {
            Stopped::NoText(place) => Fault::NoText { place },
            Stopped::NoMemory => Fault::NoMemory,
        }
    }
}

impl From<NoMemory> for Stopped {
    fn from(_: NoMemory) -> Self {
        Stopped::NoMemory
    }
}

/// The words of the command line, without the program's own name.
pub fn words<R: Env + Alloc<A = Global>>(rt: &R) -> Result<Vec<String>, Stopped> {
    let all = match env::args(rt) {
        Ok(all) => all,
        Err(error) if error.kind() == io::ErrorKind::OutOfMemory => return Err(Stopped::NoMemory),
        Err(_) => return Err(Stopped::NoText(place_of_no_text(rt)?)),
    };
    let mut words = Vec::new(rt.alloc());
    for word in all.skip(1) {
        put(&mut words, word)?;
    }
    Ok(words)
}

fn put(words: &mut Vec<String>, word: String) -> Result<(), NoMemory> {
    words.push(word)?;
    Ok(())
}

/// The place of the first word that is no text.
fn place_of_no_text<R: Env + Alloc<A = Global>>(rt: &R) -> Result<usize, NoMemory> {
    let mut room = vec![in rt.alloc(); 0u8; WORD_ROOM]?;
    let mut place = 0usize;
    for _ in 0..u64::MAX {
        match rt.arg(place, room.as_mut_slice()) {
            Ok(len) if is_text(room.as_slice(), len) => place = place.saturating_add(1),
            Err(FillError::TooLong) => double(&mut room)?,
            Ok(_) | Err(FillError::NotPresent) => break,
        }
    }
    Ok(place)
}

/// Whether the first so many bytes are text.
fn is_text(bytes: &[u8], len: usize) -> bool {
    match bytes.get(..len) {
        Some(word) => str::from_utf8(word).is_ok(),
        None => false,
    }
}

fn double(room: &mut Vec<u8>) -> Result<(), NoMemory> {
    room.resize(room.len().saturating_mul(2), 0)?;
    Ok(())
}
