ghost use Rattle.std.specs.Prelude.{◌≡◌, ◌≤◌, length, refl, IfOk};
ghost use Rattle.mm_base.specs.Prepared.{Suffices};
ghost use Rattle.mm_history.specs.TestMachine.{recalled};
ghost use Rattle.std.proofs.Common.{arith};

use crate::Kept;
use mm_base::{Machine, NoMemory, Outcome, OutcomeRooms, Prepared, Receipt, Saved, Shape};
use std::alloc::Global;
use std::test::Fail;

/// It replies with the request's own bytes, and its status is the length of the request before.
#[derive(Drop)]
struct Recaller {
    last: u64,
}

impl Machine for Recaller {
    ghost stepped = { λ machine request. (recalled machine.last request, record { last = request.length }) };

    ghost most_calls = { λ machine. 0 };

    fn calls(&self) -> u32 {
        0
    }

    fn step(&mut self, prepared: &mut Prepared) {
        let OutcomeRooms {
            mut reply,
            chain,
            root,
            blanks: _,
        } = prepared.rooms();
        let request = &prepared.entry().request;
        let length = request.length;
        reply.extend(request.bytes.as_slice());
        prepared.finish(Outcome {
            shape: Shape::BadLength,
            status: self.last,
            reply: reply.into_list(),
            chain: chain.into_list(),
            root: root.into_list(),
        });
        self.last = length;
    }

    ghost calls_stay = { λ machine request. refl };

    ghost within = { λ machine request. record {
      calls = Prim.omega arith;
      chain = λ k d h. absurd (Prim.omega (arith, h));
      root = λ k d h. absurd (Prim.omega (arith, h));
      reply = Prim.omega arith;
    } };
}

/// The memory of an entry, with a request of these bytes, whose length word is this.
fn asking(alloc: Global, len: u64, bytes: &[u8]) -> Result<Prepared, NoMemory>
    requires { length bytes.now ≤ 8 }
    ensures { IfOk result (λ prepared. Suffices 0 prepared) }
{
    let mut prepared = Prepared::new(alloc, 8, 0)?;
    prepared.capture(bytes);
    prepared.seal(0, len, bytes.len(), Saved::ZERO);
    Ok(prepared)
}

/// Two requests that are served one after the other, and their receipts. The request before them had the length 9.
fn two_served(alloc: Global) -> Result<(Kept<Recaller>, Receipt, Receipt), NoMemory> {
    let mut kept = Kept::begin(Recaller { last: 9 });
    let first = kept.serve(asking(alloc, 20, &[1, 2])?);
    let second = kept.serve(asking(alloc, 30, &[3])?);
    Ok((kept, first, second))
}

/// Whether a receipt tells this.
fn tells(receipt: &Receipt, position: u64, status: u64, bytes: &[u8]) -> bool {
    receipt.position == position && receipt.status == status && receipt.bytes.as_slice() == bytes
}

/// Whether the entry at this place has a request of this length and this status.
fn has(kept: &Kept<Recaller>, place: u64, len: u64, status: u64) -> bool {
    match kept.entries().get(place) {
        Some(entry) => entry.request.length == len && entry.outcome.status == status,
        None => false,
    }
}

#[test]
fn serves_in_order(rt: HostRuntime) -> Result<(), Fail> {
    let (kept, first, second) = two_served(rt.alloc())?;
    assert!(rt; tells(&first, 0, 9, &[1, 2]));
    assert!(rt; tells(&second, 1, 20, &[3]));
    assert!(rt; kept.entries().len() == 2);
    assert!(rt; has(&kept, 0, 20, 9));
    assert!(rt; has(&kept, 1, 30, 20));
    assert!(rt; kept.machine().last == 30);
    Ok(())
}
