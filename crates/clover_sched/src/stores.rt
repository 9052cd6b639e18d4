// The stores of a restart, made on the pool that lost its power. No memory is taken for a store but its room in the
// trace.
ghost use Rattle.std.specs.Prelude.{◌≡◌, ◌≢◌, ◌<◌, List, [], length, take, OnErr, OnOk};
ghost use Rattle.clover_rule.specs.declared.view.RestartStore.{RestartStore};
ghost use Rattle.clover_restart.specs.Going.{OnEnd, OnStored};
ghost use Rattle.clover_sched.specs.Stores.{AreLeft, Stores};

use clover_list::OutOfMemory;
use clover_plain::{Actor, PlainPool};
use clover_restart::Restart;

/// Makes the next store of a restart. False where all are made. `OutOfMemory` for want of memory: no store is made then.
fn store_next(restart: &mut Restart, pool: &mut PlainPool) -> Result<bool, OutOfMemory>
    requires { AreLeft pool.old restart.old }
    ensures made { OnOk result (Stores pool.old restart.old (take 1 restart.old.rest) pool.new restart.new) }
    ensures stored { OnStored result (restart.old.rest ≢ []) }
    ensures end { OnEnd result (restart.old.rest ≡ []) }
    ensures refused { OnErr result (Stores pool.old restart.old [] pool.new restart.new) }
{
    pool.stands();
    pool.reserve()?;
    let mut port = pool.port(Actor::Restart, false);
    match restart.step(&mut port) {
        Ok(stored) => Ok(stored),
        Err(_) => unreachable!(),
    }
}

/// Makes so many stores of a restart, or all that are left where they are fewer. `OutOfMemory` for want of memory: fewer
/// are made then, and the others are left.
pub fn make_stores(
    restart: &mut Restart,
    pool: &mut PlainPool,
    count: u64,
) -> Result<(), OutOfMemory>
    requires { AreLeft pool.old restart.old }
    ensures made { OnOk result (Stores pool.old restart.old (take count restart.old.rest) pool.new restart.new) }
    ensures refused { OnErr result ((made : List RestartStore) × (length made < count) × Stores pool.old restart.old made pool.new restart.new) }
{
    pool.stands();
    for _ in 0..count {
        if !store_next(restart, pool)? {
            break;
        }
    }
    Ok(())
}

/// Makes all stores of a restart that are left. `OutOfMemory` for want of memory: some are made then, and the others are
/// left.
pub fn make_all_stores(restart: &mut Restart, pool: &mut PlainPool) -> Result<(), OutOfMemory>
    requires { AreLeft pool.old restart.old }
    ensures made { OnOk result (Stores pool.old restart.old restart.old.rest pool.new restart.new) }
    ensures end { OnOk result (restart.new.rest ≡ []) }
    ensures refused { OnErr result ((made : List RestartStore) × Stores pool.old restart.old made pool.new restart.new) }
{
    pool.stands();
    while store_next(restart, pool)? {}
    Ok(())
}
