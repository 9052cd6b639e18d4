// What no clause says: that the calls answer where there is memory, and takings that were worked out by hand.
ghost use Rattle.std.specs.Prelude.{◌≡◌, ◌≤◌, true};

use super::*;
use clover_words::{Buffer, Pool, Tag};
use std::test::Fail;

// Books may move to another thread.
fn sent<T: Send>(value: T) -> T {
    value
}

// Takes a buffer, binds it and gives it back. None where no buffer is free.
fn served(books: &mut Books) -> Option<Tag> {
    let batch = books.take(1);
    let tag = *batch.items().first()?;
    books.bind(tag);
    books.give_back(tag);
    Some(tag)
}

// Whether the next taking of so many gives the tags of these nodes, indices and generations.
fn gives(books: &mut Books, count: u32, wanted: &[(u32, u32, u32)]) -> bool
    requires { count ≤ 64 }
{
    let batch = books.take(count);
    let tags = batch.items();
    tags.len() == wanted.len()
        && tags.iter().zip(wanted).all(|(tag, want)| (tag.node, tag.index, tag.generation) == *want)
}

// The numbers of free, worn and bound buffers and of those that are out.
fn numbers(books: &Books) -> (u32, u32, u32, u32) {
    let counts = books.counts();
    (counts.free, counts.worn, counts.bound, counts.out)
}

#[test]
fn takes_from_the_node_with_the_most_free_buffers(rt: HostRuntime) -> Result<(), Fail> {
    let pool = Pool {
        nodes: 2,
        buffers: 4,
        slots: 1,
        words: 1,
        wear: 3,
    };
    let mut books = sent(Books::make(rt.alloc(), pool)?);
    assert!(rt; gives(&mut books, 3, &[(0, 0, 0), (1, 0, 0), (0, 1, 0)]));
    assert!(rt; gives(&mut books, 1, &[(1, 1, 0)]));
    assert!(rt; gives(&mut books, 0, &[]));
    assert!(rt;
        gives(
            &mut books,
            64,
            &[(0, 2, 0), (1, 2, 0), (0, 3, 0), (1, 3, 0)]
        )
    );
    assert!(rt; gives(&mut books, 1, &[]));
    assert!(rt; numbers(&books) == (0, 0, 0, 8));
    Ok(())
}

#[test]
fn a_buffer_serves_each_generation_once(rt: HostRuntime) -> Result<(), Fail> {
    let pool = Pool {
        nodes: 1,
        buffers: 1,
        slots: 1,
        words: 1,
        wear: 3,
    };
    let mut books = Books::make(rt.alloc(), pool)?;
    for generation in 0..3 {
        let tag = served(&mut books);
        assert!(rt;
            tag.is_some_and(|tag| (tag.node, tag.index, tag.generation) == (0, 0, generation))
        );
    }
    assert!(rt; served(&mut books).is_none());
    assert!(rt; numbers(&books) == (0, 1, 0, 0));
    Ok(())
}

#[test]
fn what_was_restored_is_counted_and_taken(rt: HostRuntime) -> Result<(), Fail> {
    let pool = Pool {
        nodes: 1,
        buffers: 130,
        slots: 1,
        words: 1,
        wear: 3,
    };
    let mut books = Books::make(rt.alloc(), pool)?;
    books.restore(Buffer { node: 0, index: 0 }, 1, Place::Free);
    books.restore(Buffer { node: 0, index: 1 }, 3, Place::Worn);
    books.restore(Buffer { node: 0, index: 2 }, 2, Place::Bound);
    books.restore(Buffer { node: 0, index: 3 }, 0, Place::Out);
    assert!(rt; numbers(&books) == (127, 1, 1, 1));
    assert!(rt; gives(&mut books, 2, &[(0, 0, 1), (0, 4, 0)]));
    let batch = books.take(60);
    assert!(rt; batch.items().len() == 60);
    assert!(rt; gives(&mut books, 1, &[(0, 65, 0)]));
    Ok(())
}
