//! The version handler: it answers the version of the core.
ghost use Rattle.std.specs.Prelude.{◌≡◌};
ghost use Rattle.mm_core.specs.Invoked.{version_answer};

use crate::buffer::Buffer;
use mm_base::status::{INVALID_PARAMETER, SUCCESS};
use mm_base::{Guid, WORD_BYTES};

/// The GUID of the version handler, 4d4d5631-0001-4000-8000-000000000001, as it is stored.
pub const VERSION_GUID: Guid = Guid([
    0x31, 0x56, 0x4d, 0x4d, 0x01, 0x00, 0x00, 0x40, 0x80, 0x00, 0x00, 0x00, 0x00, 0x00, 0x00, 0x01,
]);

/// What the version handler answers: this project's own word for PI 1.8.
pub const VERSION_NUMBER: u64 = 0x1_0008;

/// Answers the version into the message, where there is place for it, and returns the status.
pub(crate) fn answer_version(buffer: &mut Buffer) -> u64
    ensures status { result ≡ (version_answer buffer.old.message).status }
    ensures message { buffer.new ≡ record buffer.old { message = (version_answer buffer.old.message).message } }
{
    if buffer.message_bytes() < WORD_BYTES {
        return INVALID_PARAMETER;
    }
    buffer.answer(&VERSION_NUMBER.to_le_bytes());
    SUCCESS
}
