//! GUIDs as firmware stores them.
ghost use Rattle.std.specs.Prelude.{◌≡◌, ◌+◌, ◌≤◌, ◌↔◌, IsSome, IfSome, take, drop, length};
ghost use Rattle.mm_base.specs.Guid.{guid_from_text, guid_text};

use uuid::Uuid;

/// How many bytes a GUID has.
pub const GUID_BYTES: usize = 16;

/// A GUID by its stored bytes: the first three fields low byte first, the rest as written.
#[derive(Clone, Copy, Debug, PartialEq, Eq, Hash)]
pub struct Guid(pub [u8; 16]);

/// The GUID that stands in the 16 bytes from `at`; None where fewer are left.
pub fn guid_at(bytes: &[u8], at: usize) -> Option<Guid>
    ensures found { IsSome result ↔ (at + 16 ≤ length bytes.now) }
    ensures value { IfSome result (λ guid. guid.0 ≡ take 16 (drop at bytes.now)) }
{
    if at > bytes.len() || bytes.len() - at < GUID_BYTES {
        return None;
    }
    let mut stored = [0; 16];
    stored.copy_from_slice(&bytes[at..at + GUID_BYTES]);
    Some(Guid(stored))
}

impl Guid {
    /// The GUID that a text spells, in any form that the crate `uuid` reads; None where it refuses the text.
    pub fn from_text(text: &str) -> Option<Guid>
        ensures { result ≡ guid_from_text text.now }
    {
        match Uuid::parse_str(text) {
            Ok(uuid) => Some(Guid(uuid.to_bytes_le())),
            Err(_) => None,
        }
    }

    /// The text of the GUID, in lower case with hyphens.
    pub fn text(&self) -> [u8; 36]
        ensures { result ≡ guid_text self.now }
    {
        let mut buffer = Uuid::encode_buffer();
        let uuid = Uuid::from_bytes_le(self.0);
        let written = uuid.hyphenated().encode_lower(&mut buffer).as_bytes();
        let mut text = [0; 36];
        text.copy_from_slice(written);
        text
    }
}
