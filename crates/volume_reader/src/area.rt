//! The headers of files, and what stands at a place of a volume.
ghost use Rattle.std.specs.Prelude.{◌≡◌, ◌+◌, ◌≤◌, length, true, MatchOption};
ghost use Rattle.volume_reader.specs.FileHeader.{has_room as has_room_for, state_at as state_told, says_large as is_said_large, is_large as is_a_large, header_size as header_size_of, size_at as size_told, header_sum_is_zero, size_fits as fits_in, is_sound as is_a_sound, file_at as file_told};
ghost use Rattle.volume_reader.specs.VolumeGrammar.{HasHeader, IsBadAt};
ghost use Rattle.volume_reader.specs.FindingInside.{Finds, FindsFile};

use crate::bytes::{byte_at, sum_of_bytes, up_to_8};
use crate::file_state::FileState;
use mm_base::{File, VolumeKind, guid_at, number_at};
use std::marker::Model;

/// How many bytes an EFI_FFS_FILE_HEADER has.
const HEADER_BYTES: usize = 24;

/// How many bytes an EFI_FFS_FILE_HEADER2 has, the header of a large file.
const LARGE_HEADER_BYTES: usize = 32;

/// FFS_ATTRIB_LARGE_FILE: the file is large.
const LARGE_FILE: u8 = 0x01;

/// FFS_ATTRIB_CHECKSUM: the file checksum is the sum of the body.
const BODY_CHECKSUM: u8 = 0x40;

/// FFS_FIXED_CHECKSUM: the file checksum of a body whose sum isn't told.
const FIXED_CHECKSUM: u8 = 0xaa;

/// EFI_FV_FILETYPE_FFS_PAD: the type of a pad file.
const PAD_FILE: u8 = 0xf0;

/// The bits of a state byte that tell a state.
const STATE_BITS: u8 = 0x3f;

/// What files are read in: the bytes of a volume, whether its file system is FFS3, and whether bits are erased to ones.
#[derive(Drop)]
pub(crate) struct Area<'a> {
    pub(crate) bytes: &'a [u8],
    pub(crate) ffs3: bool,
    pub(crate) erase_polarity: bool,
}

impl<'a> Model for Area<'a> {
    ghost use Rattle.volume_reader.specs.FileHeader.{Area as AreaRead};

    ghost Value = { AreaRead };

    ghost view = { λ area. record { bytes = area.bytes.now; ffs3 = area.ffs3; erase_polarity = area.erase_polarity } };
}

/// What stands at a place.
#[derive(Clone, Copy, Debug, PartialEq, Eq)]
pub(crate) enum Found {
    /// Files end here.
    End,
    /// A header that is refused.
    Refused(VolumeKind),
    /// A span with the place behind it, and its file, where it counts.
    Behind(usize, Option<File>),
}

impl<'a> Area<'a> {
    /// Whether so many bytes are left from a place on.
    fn has_room(&self, at: usize, size: usize) -> bool
        ensures { result ≡ has_room_for self.now at size }
    {
        at <= self.bytes.len() && size <= self.bytes.len() - at
    }

    /// The state of the file at a place.
    fn state_at(&self, at: usize) -> FileState
        requires { has_room_for self.now at 24 ≡ true }
        ensures { result ≡ state_told self.now at }
    {
        let state = byte_at(self.bytes, at + 23);
        let told = if self.erase_polarity {
            state ^ 0xff
        } else {
            state
        };
        FileState::of(told & STATE_BITS)
    }

    /// Whether the file at a place says that it is large.
    fn says_large(&self, at: usize) -> bool
        requires { has_room_for self.now at 24 ≡ true }
        ensures { result ≡ is_said_large self.now at }
    {
        byte_at(self.bytes, at + 19) & LARGE_FILE != 0
    }

    /// Whether the file at a place is large.
    fn is_large(&self, at: usize) -> bool
        requires { has_room_for self.now at 24 ≡ true }
        ensures { result ≡ is_a_large self.now at }
    {
        self.ffs3 && self.says_large(at)
    }

    /// How many bytes the header at a place has.
    fn header_size(&self, at: usize) -> usize
        requires { has_room_for self.now at 24 ≡ true }
        ensures { result ≡ header_size_of self.now at }
    {
        if self.is_large(at) {
            LARGE_HEADER_BYTES
        } else {
            HEADER_BYTES
        }
    }

    /// The size that the file at a place tells, with its header.
    fn size_at(&self, at: usize) -> usize
        requires room { has_room_for self.now at 24 ≡ true }
        requires large { is_a_large self.now at ≡ true → has_room_for self.now at 32 ≡ true }
        ensures { result ≡ size_told self.now at }
    {
        if self.is_large(at) {
            number_at(self.bytes, at + 24, 8) as usize
        } else {
            number_at(self.bytes, at + 20, 3) as usize
        }
    }

    /// Whether the header at a place sums up to 0 in 8 bits, without its state and its file checksum.
    fn header_sums_up(&self, at: usize) -> bool
        requires room { has_room_for self.now at 24 ≡ true }
        requires large { is_a_large self.now at ≡ true → has_room_for self.now at 32 ≡ true }
        ensures { result ≡ header_sum_is_zero self.now at }
    {
        let (_, rest) = self.bytes.split_at(at);
        let (header, _) = rest.split_at(self.header_size(at));
        sum_of_bytes(header) == header[17].wrapping_add(header[23])
    }

    /// Whether the size of the file at a place holds its header, and leads past no end.
    fn size_fits(&self, at: usize) -> bool
        requires room { has_room_for self.now at 24 ≡ true }
        requires large { is_a_large self.now at ≡ true → has_room_for self.now at 32 ≡ true }
        ensures { result ≡ fits_in self.now at }
    {
        let size = self.size_at(at);
        self.header_size(at) <= size && self.has_room(at, size)
    }

    /// What the header at a place is refused for; linear in the header.
    fn header_fault(&self, at: usize) -> Option<VolumeKind>
        requires { has_room_for self.now at 24 ≡ true }
        ensures { MatchOption result (HasHeader self.now at) (IsBadAt self.now at) }
    {
        if self.is_large(at) && !self.has_room(at, LARGE_HEADER_BYTES) {
            return Some(VolumeKind::FileSize);
        }
        if !self.header_sums_up(at) {
            return Some(VolumeKind::FileSum);
        }
        if self.size_fits(at) && (self.ffs3 || !self.says_large(at)) {
            return None;
        }
        Some(VolumeKind::FileSize)
    }

    /// Whether the body of the file at a place is sound; linear in the body.
    fn is_sound(&self, at: usize) -> bool
        requires { HasHeader self.now at }
        ensures { result ≡ is_a_sound self.now at }
    {
        if byte_at(self.bytes, at + 18) == PAD_FILE {
            return true;
        }
        let checksum = byte_at(self.bytes, at + 17);
        if byte_at(self.bytes, at + 19) & BODY_CHECKSUM == 0 {
            return checksum == FIXED_CHECKSUM;
        }
        let header = self.header_size(at);
        let (_, rest) = self.bytes.split_at(at + header);
        let (body, _) = rest.split_at(self.size_at(at) - header);
        checksum.wrapping_add(sum_of_bytes(body)) == 0
    }

    /// The file at a place; linear in its body.
    fn file_at(&self, at: usize) -> File
        requires header { HasHeader self.now at }
        requires few { length self.now.bytes ≤ 16777216 }
        ensures { result ≡ file_told self.now at }
    {
        let header = self.header_size(at);
        let size = self.size_at(at);
        File {
            at: at as u32,
            name: guid_at(self.bytes, at).unwrap(),
            kind: byte_at(self.bytes, at + 18),
            size: size as u32,
            body_at: (at + header) as u32,
            body: (size - header) as u32,
            sound: self.is_sound(at),
        }
    }

    /// The file at a place and the place behind it, or what it is refused for.
    fn file_found(&self, at: usize, counts: bool) -> Found
        requires room { has_room_for self.now at 24 ≡ true }
        requires few { length self.now.bytes ≤ 16777216 }
        ensures { FindsFile self.now at counts result }
    {
        if let Some(kind) = self.header_fault(at) {
            return Found::Refused(kind);
        }
        let next = up_to_8(at + self.size_at(at));
        let file = if counts { Some(self.file_at(at)) } else { None };
        Found::Behind(next, file)
    }

    /// What stands at a place; linear in the file there.
    pub(crate) fn find(&self, at: usize) -> Found
        requires { length self.now.bytes ≤ 16777216 }
        ensures { Finds self.now at result }
    {
        if !self.has_room(at, HEADER_BYTES) {
            return Found::End;
        }
        match self.state_at(at) {
            FileState::Free => Found::End,
            FileState::HeaderConstruction | FileState::HeaderInvalid => {
                Found::Behind(at + HEADER_BYTES, None)
            }
            FileState::HeaderValid | FileState::Deleted => self.file_found(at, false),
            FileState::DataValid | FileState::MarkedForUpdate => self.file_found(at, true),
        }
    }
}
