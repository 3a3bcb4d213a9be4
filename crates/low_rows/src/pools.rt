//! A pool that is full, and slots that don't disturb one another.
ghost use Rattle.std.specs.Prelude.{◌≡◌};

use slot_pool::{Full, Pool, Slots};
use std::process::Abort;
use std::test::Fail;

#[test]
fn a_full_pool_refuses(rt: HostRuntime) -> Result<(), Fail> {
    let mut pool = Pool::new(rt.alloc(), 1, 40)?;
    let slot = pool.take()?;
    assert!(rt; pool.free() == 0);
    assert!(rt; pool.take().is_err());
    pool.give(slot);
    assert!(rt; pool.free() == 1);
    Ok(())
}

/// Takes two slots, writes a word of each, reads both back, and takes one of them again.
fn slots_are_apart<P: Slots>(rt: &impl Abort, slots: &mut P) -> Result<(), Full>
    requires { (P.pool slots.old).words ≡ 3 }
{
    let first = slots.take_slot()?;
    let second = slots.take_slot()?;
    slots.set_slot(&first, 0, 7);
    slots.set_slot(&second, 2, 8);
    assert!(rt; slots.slot(&first) == [7, 0, 0].as_slice());
    assert!(rt; slots.slot(&second) == [0, 0, 8].as_slice());
    slots.give_slot(first);
    let third = slots.take_slot()?;
    assert!(rt; slots.slot(&third) == [0, 0, 0].as_slice());
    assert!(rt; slots.slot(&second) == [0, 0, 8].as_slice());
    Ok(())
}

#[test]
fn slots_keep_their_words(rt: HostRuntime) -> Result<(), Fail> {
    let mut pool = Pool::new(rt.alloc(), 2, 3)?;
    slots_are_apart(&rt, &mut pool)?;
    assert!(rt; pool.free() == 0);
    Ok(())
}
