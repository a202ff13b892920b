//! The header of a communicate buffer, and the message after it.
ghost use Rattle.std.specs.Prelude.{◌≡◌, ◌+◌, ◌≤◌, length, IsTrue};
ghost use Rattle.mm_core.specs.CommunicateHeader.{header_length, header_of, header_bytes, message_bytes};

use mm_base::{GUID_BYTES, Guid, HEADER_BYTES, Request, guid_at, number_at};

/// How many bytes MessageLength has.
const SIZE_BYTES: u8 = 8;

/// What the header of a request says.
#[derive(Clone, Copy)]
pub(crate) struct Header {
    /// Whether the message fits the request.
    pub fits: bool,
    /// The GUID whose handlers the message is for.
    pub guid: Guid,
    /// How many bytes the message has.
    pub size: u64,
    /// How many bytes of the request come before the message.
    pub front: usize,
}

/// The header of a request of lawful length.
pub(crate) fn read_header(request: &Request) -> Header
    requires header { header_length ≤ request.now.length }
    requires whole { length request.now.bytes ≡ request.now.length }
    ensures { result ≡ header_of request.now }
{
    let bytes = request.bytes.as_slice();
    let size = number_at(bytes, GUID_BYTES, SIZE_BYTES);
    Header {
        fits: size <= request.length - HEADER_BYTES,
        guid: guid_at(bytes, 0).unwrap(),
        size,
        front: HEADER_BYTES as usize,
    }
}

/// The header and the message of a request, as they were captured.
pub(crate) fn split_request(request: &Request) -> (&[u8], &[u8])
    requires header { header_length ≤ request.now.length }
    requires whole { length request.now.bytes ≡ request.now.length }
    requires fits { IsTrue (header_of request.now).fits }
    ensures header { result.0.now ≡ header_bytes request.now }
    ensures message { result.1.now ≡ message_bytes request.now }
    ensures size { length result.1.now ≡ (header_of request.now).size }
    ensures within { length result.0.now + length result.1.now ≤ length request.now.bytes }
{
    let header = read_header(request);
    let (front, rest) = request.bytes.as_slice().split_at(header.front);
    let (message, _) = rest.split_at(header.size as usize);
    (front, message)
}
