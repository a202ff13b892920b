//! The buffer of an entry: the reply so far, and after it the message that handlers work on.
ghost use Rattle.std.specs.Prelude.{◌≡◌, ◌+◌, ◌≤◌, [], ◌++◌, min, length, take, drop};
ghost use Rattle.mm_base.specs.Numbers.{overwritten};
ghost use Rattle.mm_core.specs.Message.{no_message};

use mm_base::{List, Room};
use std::marker::Model;

/// The reply so far, and after it in the same room the message that handlers work on.
#[derive(Debug, Drop)]
pub(crate) struct Buffer {
    bytes: Room<u8>,
    front: usize,
    size: u64,
}

impl Model for Buffer {
    ghost use Rattle.std.specs.Prelude.{◌≤◌, take, drop, length};
    ghost use Rattle.mm_core.specs.BufferInside.{BufferState};

    ghost Value = { BufferState };

    ghost view = { λ b. record {
      front = take b.front b.bytes.items;
      message = record { buffer = drop b.front b.bytes.items; size = b.size };
      room = b.bytes.room;
    } };

    ghost invariant = { λ b. b.front ≤ length b.bytes.items };
}

impl Buffer {
    /// A buffer without reply and message, in this room.
    pub(crate) fn new(bytes: Room<u8>) -> Buffer
        requires { bytes.items ≡ [] }
        ensures { result ≡ record { front = []; message = no_message; room = bytes.room } }
    {
        Buffer {
            bytes,
            front: 0,
            size: 0,
        }
    }

    /// Makes this header the reply so far, and copies the message after it.
    pub(crate) fn open(&mut self, header: &[u8], message: &[u8])
        requires front { self.old.front ≡ [] }
        requires message { self.old.message ≡ no_message }
        requires room { length header.now + length message.now ≤ self.old.room }
        ensures { self.new ≡ record {
          front = header.now;
          message = record { buffer = message.now; size = length message.now };
          room = self.old.room;
        } }
    {
        self.bytes.extend(header);
        self.bytes.extend(message);
        self.front = header.len();
        self.size = message.len() as u64;
    }

    /// The bytes of the message, whatever its size.
    pub(crate) fn message(&self) -> &[u8]
        ensures { result.now ≡ self.now.message.buffer }
    {
        let (_, message) = self.bytes.as_slice().split_at(self.front);
        message
    }

    /// The size of the message.
    pub(crate) fn size(&self) -> u64
        ensures { result ≡ self.now.message.size }
    {
        self.size
    }

    /// Makes this the size of the message.
    pub(crate) fn resize(&mut self, size: u64)
        ensures { self.new ≡ record self.old { message = record self.old.message { size = size } } }
    {
        self.size = size;
    }

    /// Writes these bytes over those of the message from a place on.
    pub(crate) fn put(&mut self, at: usize, piece: &[u8])
        requires { at + length piece.now ≤ length self.old.message.buffer }
        ensures { self.new ≡ record self.old {
          message = record self.old.message { buffer = overwritten self.old.message.buffer at piece.now };
        } }
    {
        let after = self.message_bytes() - at;
        let start = self.bytes.len() - after;
        self.bytes.overwrite(start, piece);
    }

    /// How many bytes there are for the message, whatever its size.
    pub(crate) fn message_bytes(&self) -> usize
        ensures { result ≡ length self.now.message.buffer }
    {
        self.bytes.len() - self.front
    }

    /// Writes these bytes over the first ones of the message, and makes their number its size.
    pub(crate) fn answer(&mut self, bytes: &[u8])
        requires { length bytes.now ≤ length self.old.message.buffer }
        ensures { self.new ≡ record self.old {
          message = record {
            buffer = bytes.now ++ drop (length bytes.now) self.old.message.buffer;
            size = length bytes.now;
          };
        } }
    {
        self.bytes.overwrite(self.front, bytes);
        self.size = bytes.len() as u64;
    }

    /// Adds to the reply what the message has by its size, `most` bytes at most. No message is left.
    pub(crate) fn close(&mut self, most: usize)
        ensures { self.new ≡ record {
          front = self.old.front ++ take (min self.old.message.size most) self.old.message.buffer;
          message = no_message;
          room = self.old.room;
        } }
    {
        let there = self.bytes.len() - self.front;
        let kept = self.size.min(most as u64).min(there as u64) as usize;
        self.bytes.truncate(self.front + kept);
        self.front = self.bytes.len();
        self.size = 0;
    }

    /// The reply, where there is no message. It is moved and not copied.
    pub(crate) fn into_reply(self) -> List<u8>
        requires { self.message ≡ no_message }
        ensures { result ≡ self.front }
    {
        let Buffer {
            bytes,
            front: _,
            size: _,
        } = self;
        bytes.into_list()
    }
}
