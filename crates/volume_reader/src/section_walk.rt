//! The sections of a file, one after another.
ghost use Rattle.std.specs.Prelude.{◌≡◌, ◌+◌, ◌≤◌, length, true};
ghost use Rattle.volume_reader.specs.Sections.{is_extended as is_an_extended, section_header as header_of_section, section_size as size_of_section, has_section as has_a_section, up_to_4 as rounded_up_to_4, walk_of, given_next, walked_on};

use crate::bytes::byte_at;
use mm_base::{File, Section, SectionFault, number_at};
use std::marker::Model;

/// How many bytes a section's header has, and that of an extended section.
const HEADER_BYTES: usize = 4;

const EXTENDED_HEADER_BYTES: usize = 8;

/// The 3-byte size that tells an extended section.
const EXTENDED: u64 = 0xff_ffff;

/// A walk over the sections of a file, in order.
#[derive(Drop)]
pub struct Sections<'a> {
    body: &'a [u8],
    begin: usize,
    place: usize,
}

impl<'a> Model for Sections<'a> {
    ghost use Rattle.volume_reader.specs.Sections.{Walk};
    ghost use Rattle.std.specs.Prelude.{◌+◌, ◌≤◌, length};

    ghost Value = { Walk };

    ghost view = { λ walk. record { body = walk.body.now; begin = walk.begin; place = walk.place } };

    ghost invariant = { λ walk. (walk.begin + length walk.body.now ≤ 16777216) × (walk.place ≤ length walk.body.now + 3) };
}

/// Whether the section at a place of a body is an extended one.
fn is_extended(body: &[u8], at: usize) -> bool
    requires { at + 4 ≤ length body.now }
    ensures { result ≡ is_an_extended body.now at }
{
    number_at(body, at, 3) == EXTENDED
}

/// How many bytes the header of the section at a place of a body has.
fn section_header(body: &[u8], at: usize) -> usize
    requires { at + 4 ≤ length body.now }
    ensures { result ≡ header_of_section body.now at }
{
    if is_extended(body, at) {
        EXTENDED_HEADER_BYTES
    } else {
        HEADER_BYTES
    }
}

/// The size that the section at a place of a body tells, with its header.
fn section_size(body: &[u8], at: usize) -> usize
    requires { at + header_of_section body.now at ≤ length body.now }
    ensures { result ≡ size_of_section body.now at }
{
    if is_extended(body, at) {
        number_at(body, at + 4, 4) as usize
    } else {
        number_at(body, at, 3) as usize
    }
}

/// Whether a section stands at a place of a body.
fn has_section(body: &[u8], at: usize) -> bool
    requires { at + 4 ≤ length body.now }
    ensures { result ≡ has_a_section body.now at }
{
    let header = section_header(body, at);
    if header > body.len() - at {
        return false;
    }
    let size = section_size(body, at);
    header <= size && size <= body.len() - at
}

/// A place rounded up to a multiple of 4.
fn up_to_4(place: usize) -> usize
    requires { place ≤ 4294967296 }
    ensures { result ≡ rounded_up_to_4 place }
{
    4 * ((place + 3) / 4)
}

impl<'a> Sections<'a> {
    /// The walk over the sections of a file of these bytes, from its first one on.
    pub fn of(bytes: &'a [u8], file: &File) -> Sections<'a>
        requires within { file.now.body_at + file.now.body ≤ length bytes.now }
        requires few { length bytes.now ≤ 16777216 }
        ensures { result ≡ walk_of bytes.now file.now }
    {
        let begin = file.body_at as usize;
        let (_, rest) = bytes.split_at(begin);
        let (body, _) = rest.split_at(file.body as usize);
        Sections {
            body,
            begin,
            place: 0,
        }
    }

    /// The next section; None where sections end. A section that is refused stays the next one. The cost is constant.
    pub fn next_section(&mut self) -> Result<Option<Section>, SectionFault>
        ensures given { result ≡ given_next self.old }
        ensures after { self.new ≡ walked_on self.old }
    {
        let at = self.place;
        if at + HEADER_BYTES > self.body.len() {
            return Ok(None);
        }
        if !has_section(self.body, at) {
            return Err(SectionFault {
                at: (self.begin + at) as u32,
            });
        }
        let header = section_header(self.body, at);
        let size = section_size(self.body, at);
        self.place = up_to_4(at + size);
        Ok(Some(Section {
            kind: byte_at(self.body, at + 3),
            at: (self.begin + at + header) as u32,
            length: (size - header) as u32,
        }))
    }
}
