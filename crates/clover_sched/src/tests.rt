// A pool loses its power, and its restart makes stores.
ghost use Rattle.std.specs.Prelude.{◌≡◌, IfOk};
ghost use Rattle.clover_rule.specs.Cut.{IsCut};
ghost use Rattle.clover_sched.specs.Stores.{AreLeft};

use crate::{make_all_stores, make_stores};
use clover_image::Image;
use clover_list::OutOfMemory;
use clover_plain::PlainPool;
use clover_restart::Restart;
use clover_words::{Buffer, Pool, Setup, Side, Word};
use std::alloc::Global;
use std::test::Fail;

// The pool loses its power, and this image is left of it. Its restart has all stores to make.
fn lose_power(alloc: Global, pool: &mut PlainPool, image: &Image) -> Result<Restart, OutOfMemory>
    requires pool { image.now.pool ≡ pool.old.setup.pool }
    requires cut { IsCut pool.old.setup.pool pool.old.words image.now.words }
    ensures { IfOk result (λ restart. AreLeft pool.new restart) }
{
    pool.power_cut(image.words());
    Restart::of_sound(alloc, image)
}

// The flushed copy of the next word of a buffer of the one memory node.
fn next_word(pool: &PlainPool, index: u32) -> Option<u64> {
    pool.durable(Word::Next(Buffer { node: 0, index }), Side::Flushed)
}

#[test]
fn a_restart_makes_some_stores_and_then_all(rt: HostRuntime) -> Result<(), Fail> {
    let alloc = rt.alloc();
    let shape = Pool::check(1, 2, 1, 1, 9)?;
    let mut pool = PlainPool::make(alloc, Setup::check(shape, 1, 1)?, true)?;
    let image = Image::blank(alloc, shape)?;
    let mut restart = lose_power(alloc, &mut pool, &image)?;
    make_stores(&mut restart, &mut pool, 0)?;
    assert_eq!(rt; pool.made(), 0);
    // Both copies of the first buffer's next word.
    make_stores(&mut restart, &mut pool, 2)?;
    assert_eq!(rt; pool.made(), 2);
    assert_eq!(rt; next_word(&pool, 0), Some(1 << 43));
    assert_eq!(rt; next_word(&pool, 1), Some(0));
    // Those of the second one, and the count.
    make_all_stores(&mut restart, &mut pool)?;
    assert_eq!(rt; pool.made(), 5);
    assert_eq!(rt; next_word(&pool, 1), Some(1 << 43));
    // None is left.
    make_stores(&mut restart, &mut pool, 3)?;
    assert_eq!(rt; pool.accesses().len(), 5);
    Ok(())
}
