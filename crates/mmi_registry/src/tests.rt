//! Chains of two handlers, and registries of a few. What is expected was worked out by hand from the rules.
ghost use Rattle.std.specs.Prelude.{◌<◌};

use crate::{RegisterEnd, Registry, UnregisterEnd, combine};
use mm_base::status::{
    INTERRUPT_PENDING, NOT_FOUND, SUCCESS, UNSUPPORTED as OTHER,
    WARN_INTERRUPT_SOURCE_PENDING as SOURCE_PENDING, WARN_INTERRUPT_SOURCE_QUIESCED as QUIESCED,
};
use mm_base::{Guid, Handler, HandlerBody, NoMemory};
use std::alloc::Global;
use std::test::Fail;

/// What two handlers return; what a GUID's chain comes to, and how many it calls; and what the root chain comes to.
const CHAINS: [(u64, u64, u64, u32, u64); 25] = [
    (SUCCESS, SUCCESS, SUCCESS, 1, SUCCESS),
    (SUCCESS, INTERRUPT_PENDING, SUCCESS, 1, SUCCESS),
    (SUCCESS, QUIESCED, SUCCESS, 1, SUCCESS),
    (SUCCESS, SOURCE_PENDING, SUCCESS, 1, SUCCESS),
    (SUCCESS, OTHER, SUCCESS, 1, SUCCESS),
    (INTERRUPT_PENDING, SUCCESS, INTERRUPT_PENDING, 1, SUCCESS),
    (
        INTERRUPT_PENDING,
        INTERRUPT_PENDING,
        INTERRUPT_PENDING,
        1,
        NOT_FOUND,
    ),
    (INTERRUPT_PENDING, QUIESCED, INTERRUPT_PENDING, 1, SUCCESS),
    (
        INTERRUPT_PENDING,
        SOURCE_PENDING,
        INTERRUPT_PENDING,
        1,
        SOURCE_PENDING,
    ),
    (INTERRUPT_PENDING, OTHER, INTERRUPT_PENDING, 1, NOT_FOUND),
    (QUIESCED, SUCCESS, SUCCESS, 2, SUCCESS),
    (QUIESCED, INTERRUPT_PENDING, INTERRUPT_PENDING, 2, SUCCESS),
    (QUIESCED, QUIESCED, SUCCESS, 2, SUCCESS),
    (QUIESCED, SOURCE_PENDING, SUCCESS, 2, SUCCESS),
    (QUIESCED, OTHER, SUCCESS, 2, SUCCESS),
    (SOURCE_PENDING, SUCCESS, SUCCESS, 2, SUCCESS),
    (
        SOURCE_PENDING,
        INTERRUPT_PENDING,
        INTERRUPT_PENDING,
        2,
        SOURCE_PENDING,
    ),
    (SOURCE_PENDING, QUIESCED, SUCCESS, 2, SUCCESS),
    (
        SOURCE_PENDING,
        SOURCE_PENDING,
        SOURCE_PENDING,
        2,
        SOURCE_PENDING,
    ),
    (SOURCE_PENDING, OTHER, SOURCE_PENDING, 2, SOURCE_PENDING),
    (OTHER, SUCCESS, SUCCESS, 2, SUCCESS),
    (OTHER, INTERRUPT_PENDING, INTERRUPT_PENDING, 2, NOT_FOUND),
    (OTHER, QUIESCED, SUCCESS, 2, SUCCESS),
    (OTHER, SOURCE_PENDING, SOURCE_PENDING, 2, SOURCE_PENDING),
    (OTHER, OTHER, NOT_FOUND, 2, NOT_FOUND),
];

/// The result of a chain of two, and how many of them it calls.
fn of_two(root: bool, first: u64, second: u64) -> (u64, u32) {
    let (so_far, stopped) = combine(root, NOT_FOUND, first);
    if stopped {
        return (so_far, 1);
    }
    let (result, _) = combine(root, so_far, second);
    (result, 2)
}

#[test]
fn combines_two(rt: HostRuntime) {
    for (first, second, guid, called, root) in CHAINS {
        let found = (of_two(false, first, second), of_two(true, first, second));
        assert_eq!(rt;
            found,
            ((guid, called), (root, 2)),
            "{first:x} and {second:x}"
        );
    }
}

const FIRST: Guid = Guid([1; 16]);

const SECOND: Guid = Guid([2; 16]);

/// Registers code of an image.
fn put(registry: &mut Registry, guid: Option<Guid>, image: u32) -> Result<u32, RegisterEnd>
    requires { image < 32 }
{
    registry.register(
        guid,
        HandlerBody::Code {
            image,
            address: 0x2000,
        },
    )
}

fn number(handler: Option<Handler>) -> Option<u32> {
    handler.map(|handler| handler.number)
}

#[test]
fn fills_a_quota(rt: HostRuntime) -> Result<(), Fail> {
    let mut registry = Registry::new(rt.alloc())?;
    let mut answers = [Ok(0); 9];
    for answer in answers.iter_mut() {
        *answer = put(&mut registry, None, 31);
    }
    let numbers = [
        Ok(0),
        Ok(1),
        Ok(2),
        Ok(3),
        Ok(4),
        Ok(5),
        Ok(6),
        Ok(7),
        Err(RegisterEnd::Quota),
    ];
    assert_eq!(rt; answers, numbers);
    // Another image has a quota of its own, and a number that was given back is not used again.
    let other = put(&mut registry, None, 0);
    let removed = registry.unregister(2, 31);
    let again = put(&mut registry, None, 31);
    assert_eq!(rt; (other, removed, again), (Ok(8), Ok(()), Ok(9)));
    assert_eq!(rt; (registry.len(), registry.next_number()), (9, 10));
    Ok(())
}

#[test]
fn answers_unregister(rt: HostRuntime) -> Result<(), Fail> {
    let mut registry = Registry::new(rt.alloc())?;
    let registered = (
        put(&mut registry, Some(FIRST), 1),
        put(&mut registry, None, 2),
    );
    assert_eq!(rt; registered, (Ok(0), Ok(1)));
    let unknown = registry.unregister(2, 1);
    let not_mine = registry.unregister(1, 1);
    let removed = registry.unregister(0, 1);
    let gone = registry.unregister(0, 1);
    registry.freeze();
    let frozen = registry.unregister(1, 2);
    assert_eq!(rt;
        (unknown, not_mine),
        (Err(UnregisterEnd::NotFound), Err(UnregisterEnd::NotMine))
    );
    assert_eq!(rt; (removed, gone), (Ok(()), Err(UnregisterEnd::NotFound)));
    assert_eq!(rt; (frozen, registry.len()), (Err(UnregisterEnd::Frozen), 1));
    Ok(())
}

/// Five handlers, of which two are for the first GUID, one is for the second, and two are root handlers.
fn five(alloc: Global) -> Result<Registry, NoMemory> {
    let mut registry = Registry::new(alloc)?;
    for (guid, image) in [
        (None, 1),
        (Some(FIRST), 2),
        (Some(SECOND), 1),
        (Some(FIRST), 1),
        (None, 2),
    ] {
        let _ = put(&mut registry, guid, image % 32);
    }
    Ok(registry)
}

#[test]
fn keeps_order(rt: HostRuntime) -> Result<(), Fail> {
    let registry = five(rt.alloc())?;
    let first = [0, 1, 2].map(|k| number(registry.chain(FIRST, k)));
    let root = [0, 1, 2].map(|k| number(registry.root(k)));
    let all = [0, 2, 4, 5].map(|k| number(registry.all(k)));
    assert_eq!(rt; first, [Some(1), Some(3), None]);
    assert_eq!(rt; root, [Some(0), Some(4), None]);
    assert_eq!(rt; all, [Some(0), Some(2), Some(4), None]);
    let second = Handler {
        number: 2,
        guid: Some(SECOND),
        body: HandlerBody::Code {
            image: 1,
            address: 0x2000,
        },
    };
    assert_eq!(rt; registry.chain(SECOND, 0), Some(second));
    Ok(())
}

#[test]
fn forgets_an_image(rt: HostRuntime) -> Result<(), Fail> {
    let mut registry = Registry::new(rt.alloc())?;
    registry.register(Some(FIRST), HandlerBody::Version)?;
    registry.register(
        None,
        HandlerBody::Code {
            image: 2,
            address: 0x2000,
        },
    )?;
    registry.forget(2, 1);
    let left = (
        registry.len(),
        number(registry.root(0)),
        number(registry.all(0)),
    );
    assert_eq!(rt; left, (1, None, Some(0)));
    assert_eq!(rt; put(&mut registry, None, 3), Ok(1));
    Ok(())
}

#[test]
fn freezes(rt: HostRuntime) -> Result<(), Fail> {
    let mut registry = five(rt.alloc())?;
    let before = registry.is_frozen();
    registry.freeze();
    assert_eq!(rt; (before, registry.is_frozen()), (false, true));
    let refused = put(&mut registry, None, 0);
    assert_eq!(rt; (refused, registry.len()), (Err(RegisterEnd::Frozen), 5));
    Ok(())
}
