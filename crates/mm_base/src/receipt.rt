//! What an entry tells the processor that made it.
ghost use Rattle.std.specs.Prelude.{◌≡◌, ◌≤◌, [], length};
ghost use Rattle.mm_base.specs.Receipt.{receipt_of};

use crate::{List, Outcome, Room};

/// The place of an entry in the recorded order, whether its handlers ran, its status, and its reply.
#[derive(Debug, Drop)]
pub struct Receipt {
    pub position: u64,
    pub dispatched: bool,
    pub status: u64,
    pub bytes: List<u8>,
}

impl Receipt {
    /// What the outcome at this position tells, with the reply copied into a room that was taken before.
    pub fn new(position: u64, outcome: &Outcome, mut room: Room<u8>) -> Receipt
        requires empty { room.items ≡ [] }
        requires fits { length outcome.now.reply ≤ room.room }
        ensures { result ≡ receipt_of position outcome.now }
    {
        room.extend(outcome.reply.as_slice());
        Receipt {
            position,
            dispatched: outcome.shape.is_dispatched(),
            status: outcome.status,
            bytes: room.into_list(),
        }
    }
}
