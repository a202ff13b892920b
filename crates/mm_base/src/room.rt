//! Items with a room that was taken before: the form of whatever is filled without taking memory.
ghost use Rattle.std.specs.Prelude.{◌≡◌, ◌+◌, ◌≤◌, ◌<◌, max, [], ◌∷◌, ◌++◌, length, take, drop, IfOk, OnOk, OnErr};

use crate::{List, NoMemory};
use std::alloc::Global;
use std::marker::Model;
use std::mem;

/// Items, and place for some more, which pushing uses up and does not take anew.
#[derive(Debug, Drop)]
pub struct Room<T> {
    items: Vec<T>,
    room: usize,
}

impl<T> Model for Room<T> {
    ghost use Rattle.std.specs.Prelude.{◌≤◌, vec_len, vec_capacity};
    ghost use Rattle.mm_base.specs.Room.{RoomState, room_code};

    ghost Value = { RoomState T };

    ghost coded = { room_code T.code };

    ghost view = { λ r. record { items = r.items.items; room = r.room } };

    ghost invariant = { λ r. (r.room ≤ vec_capacity r.items) × (vec_len r.items ≤ r.room) };
}

impl<T> Room<T> {
    /// Place for nothing. It takes no memory.
    pub fn none(alloc: Global) -> Room<T>
        ensures { result ≡ record { items = []; room = 0 } }
    {
        Room {
            items: Vec::new(alloc),
            room: 0,
        }
    }

    /// Place for `room` items.
    pub fn new(alloc: Global, room: usize) -> Result<Room<T>, NoMemory>
        ensures { IfOk result (λ r. r ≡ record { items = []; room = room }) }
    {
        let items = Vec::with_capacity(alloc, room)?;
        Ok(Room { items, room })
    }

    /// The items so far, in order.
    pub fn as_slice(&self) -> &[T]
        ensures { result.now ≡ self.now.items }
    {
        self.items.as_slice()
    }

    /// How many items there are.
    pub fn len(&self) -> usize
        ensures value { result ≡ length self.now.items }
        ensures within { length self.now.items ≤ self.now.room }
    {
        self.items.len()
    }

    /// Sees to it that there is place for `more` items more.
    pub fn reserve(&mut self, more: usize) -> Result<(), NoMemory>
        ensures ok { OnOk result (self.new ≡ record {
          items = self.old.items;
          room = max self.old.room (length self.old.items + more);
        }) }
        ensures err { OnErr result (self.new ≡ self.old) }
    {
        self.items.reserve(more)?;
        self.room = self.room.max(self.items.len() + more);
        Ok(())
    }

    /// The items as a list, moved and not copied.
    pub fn into_list(self) -> List<T>
        ensures { result ≡ self.items }
    {
        let Room { items, room: _ } = self;
        List::from_vec(items)
    }

    /// Takes the whole room out, and leaves place for nothing.
    pub fn take(&mut self, alloc: Global) -> Room<T>
        ensures taken { result ≡ self.old }
        ensures left { self.new ≡ record { items = []; room = 0 } }
    {
        mem::replace(self, Room::none(alloc))
    }
}

impl<T: Drop> Room<T> {
    /// Puts one more item at the end.
    pub fn push(&mut self, item: T)
        requires { length self.old.items < self.old.room }
        ensures { self.new ≡ record { items = self.old.items ++ item ∷ []; room = self.old.room } }
    {
        self.items.push_reserved(item);
    }

    /// Keeps the first `len` items.
    pub fn truncate(&mut self, len: usize)
        ensures { self.new ≡ record { items = take len self.old.items; room = self.old.room } }
    {
        self.items.truncate(len);
    }

    /// Drops the items and keeps the place.
    pub fn clear(&mut self)
        ensures { self.new ≡ record { items = []; room = self.old.room } }
    {
        self.items.clear();
    }
}

impl Room<u8> {
    /// Writes these bytes over those from `at` on.
    pub fn overwrite(&mut self, at: usize, bytes: &[u8])
        requires { at + length bytes.now ≤ length self.old.items }
        ensures { self.new ≡ record {
          items = take at self.old.items ++ bytes.now ++ drop (at + length bytes.now) self.old.items;
          room = self.old.room;
        } }
    {
        self.items[at..at + bytes.len()].copy_from_slice(bytes);
    }

    /// Puts copies of these bytes at the end.
    pub fn extend(&mut self, more: &[u8])
        requires { length self.old.items + length more.now ≤ self.old.room }
        ensures { self.new ≡ record { items = self.old.items ++ more.now; room = self.old.room } }
    {
        let _ = self.items.extend_from_slice(more);
    }
}
