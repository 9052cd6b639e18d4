// A pool loses its power, is restarted and runs again.
ghost use Rattle.std.specs.Prelude.{◌≡◌, [], true, IfOk, IfSome, OnOk};
ghost use Rattle.clover_rule.specs.Cut.{IsCut};
ghost use Rattle.clover_restart.specs.Going.{OnEnd};
ghost use Rattle.clover_restart.specs.UnderWay.{IsRestarting};

use crate::Restart;
use clover_alloc::Books;
use clover_image::Image;
use clover_list::OutOfMemory;
use clover_plain::{Actor, PlainPool};
use clover_words::{Buffer, Pool, Setup, Side, Word};
use std::alloc::Global;
use std::process::Abort;
use std::test::Fail;

// The pool loses its power, and this image is left of it. Its restart has all stores to make.
fn lose_power(alloc: Global, pool: &mut PlainPool, image: &Image) -> Result<Restart, OutOfMemory>
    requires pool { image.now.pool ≡ pool.old.setup.pool }
    requires cut { IsCut pool.old.setup.pool pool.old.words image.now.words }
    ensures { IfOk result (λ restart. IsRestarting pool.new restart) }
{
    pool.power_cut(image.words());
    Restart::of_sound(alloc, image)
}

// Restart makes its next store. False where none is left.
fn store_next(pool: &mut PlainPool, restart: &mut Restart) -> Result<bool, OutOfMemory>
    requires { IsRestarting pool.old restart.old }
    ensures goes { OnOk result (IsRestarting pool.new restart.new) }
    ensures end { OnEnd result (restart.new.rest ≡ []) }
{
    pool.reserve()?;
    pool.stands();
    let mut port = pool.port(Actor::Restart, false);
    match restart.step(&mut port) {
        Ok(stored) => Ok(stored),
        Err(_) => Err(OutOfMemory),
    }
}

// Restart makes all its stores. It gives how many; None where there are more than a few.
fn store_all(pool: &mut PlainPool, restart: &mut Restart) -> Result<Option<u32>, OutOfMemory>
    requires { IsRestarting pool.old restart.old }
    ensures goes { OnOk result (IsRestarting pool.new restart.new) }
    ensures end { IfOk result (λ made. IfSome made (λ n. restart.new.rest ≡ [])) }
{
    for made in 0..16 {
        if !store_next(pool, restart)? {
            return Ok(Some(made));
        }
    }
    Ok(None)
}

// The next run begins with these books.
fn run_again(alloc: Global, pool: &mut PlainPool, restart: Restart) -> Result<Books, OutOfMemory>
    requires { IsRestarting pool.old restart × (restart.rest ≡ []) }
    ensures { OnOk result (pool.new.opened ≡ true) }
{
    let (books, directory) = restart.finish(alloc)?;
    pool.open_run(&books, &directory);
    Ok(books)
}

// The flushed copy of the next word of a buffer of the one memory node.
fn next_word(pool: &PlainPool, index: u32) -> Option<u64> {
    pool.durable(Word::Next(Buffer { node: 0, index }), Side::Flushed)
}

#[test]
fn a_pool_runs_again_behind_a_power_cut(rt: HostRuntime) -> Result<(), Fail> {
    let alloc = rt.alloc();
    let shape = Pool::check(1, 2, 1, 1, 9)?;
    let mut pool = PlainPool::make(alloc, Setup::check(shape, 1, 1)?, true)?;
    let image = Image::blank(alloc, shape)?;
    let mut restart = lose_power(alloc, &mut pool, &image)?;
    assert_eq!(rt; restart.stores(), 5);
    assert_eq!(rt; store_all(&mut pool, &mut restart)?, Some(5));
    let mut books = run_again(alloc, &mut pool, restart)?;
    assert_eq!(rt; pool.made(), 5);
    assert_eq!(rt; next_word(&pool, 0), Some(1 << 43));
    assert_eq!(rt; next_word(&pool, 1), Some(1 << 43));
    assert_eq!(rt; books.counts().free, 2);
    let batch = books.take(1);
    let [first] = batch.items() else {
        panic!(rt; "not one buffer");
    };
    assert_eq!(rt; first.generation, 1);
    Ok(())
}
