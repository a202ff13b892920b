//! The stores by which a processor answers: the reply's words, its length, and last the status.
ghost use Rattle.std.specs.Prelude.{◌≡◌, ◌≤◌, ◌<◌, ◌*◌, Some, length, map, slice_get};
ghost use Rattle.mm_base.specs.Numbers.{words_for};
ghost use Rattle.comm_core.specs.Piece.{answer, store};

use crate::Action;
use crate::action::{FIRST_DATA_WORD, LENGTH_WORD, STATUS_WORD};
use mm_base::{Receipt, WORD_BYTES, word_at};

/// How many stores an answer has.
pub fn answer_length(receipt: &Receipt) -> u32
    requires { length receipt.now.bytes ≤ 4096 }
    ensures { result ≡ length (answer receipt.now) }
{
    if receipt.dispatched {
        reply_words(receipt) + 2
    } else {
        1
    }
}

/// Store `n` of an answer.
pub fn answer_at(receipt: &Receipt, n: u32) -> Action
    requires fits { length receipt.now.bytes ≤ 4096 }
    requires there { n < length (answer receipt.now) }
    ensures { slice_get (map store (answer receipt.now)) n ≡ Some result }
{
    if !receipt.dispatched {
        return Action::Store(STATUS_WORD, receipt.status);
    }
    let words = reply_words(receipt);
    if n < words {
        let value = word_at(receipt.bytes.as_slice(), n as usize);
        return Action::Store(FIRST_DATA_WORD + n, value);
    }
    if n == words {
        return Action::Store(LENGTH_WORD, receipt.bytes.len() as u64);
    }
    Action::Store(STATUS_WORD, receipt.status)
}

/// How many words the reply fills.
fn reply_words(receipt: &Receipt) -> u32
    requires { length receipt.now.bytes ≤ 4096 }
    ensures { result ≡ words_for (length receipt.now.bytes) }
{
    receipt.bytes.len().div_ceil(WORD_BYTES) as u32
}
