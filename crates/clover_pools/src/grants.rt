// The metadata server of a small pool hands a batch out of its books to the client and its node, binds a key, and hands
// over its name.
ghost use Rattle.std.specs.Prelude.{◌≡◌, [], ◌∷◌, true, IfOk, OnOk};
ghost use Rattle.clover_dir.specs.Directory.{nothing_bound};
ghost use Rattle.clover_plain.specs.Plain.{view_at};
ghost use Rattle.clover_pools.specs.Calls.{Stands};
ghost use Rattle.clover_pools.specs.Grants.{AreNew, HasRoot, HaveGiven, IsBegun, IsBoundOnce, IsDealt, IsNameless, name};
ghost use Rattle.clover_pools.specs.Small.{HasSmallNumbers};
ghost use Rattle.clover_node.specs.Node.{first_node};
ghost use Rattle.clover_words.specs.declared.setup.Setup.{Setup as Numbers};

use crate::bindings::bind_next;
use clover_alloc::Books;
use clover_dir::{BindTask, BindTurn, Directory};
use clover_list::OutOfMemory;
use clover_map::Key;
use clover_node::Node;
use clover_plain::PlainPool;
use clover_words::{Setup, Tag};
use std::alloc::Global;
use std::test::Fail;

/// A node of client 1, which has nothing yet.
pub(crate) fn first_client(
    alloc: Global,
    pool: &PlainPool,
    setup: Setup,
) -> Result<Node, OutOfMemory>
    requires begun { IsBegun pool.now }
    requires setup { pool.now.setup ≡ setup }
    ensures value { IfOk result (λ node. node ≡ first_node setup.pool 1) }
    ensures stands { IfOk result (λ node. Stands pool.now node) }
{
    let _ = pool;
    Node::make(alloc, setup, 1)
}

/// The server hands buffers 0 and 1 to the client and its node.
pub(crate) fn hand_batch(pool: &mut PlainPool, node: &mut Node, books: &mut Books)
    requires begun { IsBegun pool.old }
    requires stands { Stands pool.old node.old }
    requires first { node.old ≡ first_node pool.old.setup.pool 1 }
    requires books { AreNew pool.old.setup books.old }
    ensures dealt { IsDealt pool.new }
    ensures nameless { IsNameless pool.new node.new }
    ensures setup { pool.new.setup ≡ pool.old.setup }
    ensures books { HaveGiven pool.new.setup books.new }
{
    let batch = books.take(2);
    pool.hand_over(1, &batch, &[]);
    node.accept(&batch, &[]);
}

// The next buffer of the books, which is buffer 2.
fn next_buffer(books: &mut Books) -> Tag
    requires { (s : Numbers) × HasSmallNumbers s × HaveGiven s books.old }
    ensures { result ≡ record { node = 0; index = 2; generation = 0 } }
{
    books.take(1).tags[0]
}

// Binds `a` to slot 0, with buffer 2 for its tombstone. Whether that came to its end.
fn bind_key(
    pool: &mut PlainPool,
    directory: &mut Directory,
    key: Key,
    own: Tag,
) -> Result<bool, OutOfMemory>
    requires dealt { IsDealt pool.old }
    requires directory { directory.old ≡ nothing_bound pool.old.setup.pool }
    requires key { key ≡ 97 ∷ [] }
    requires own { own ≡ record { node = 0; index = 2; generation = 0 } }
    ensures setup { OnOk result (pool.new.setup ≡ pool.old.setup) }
    ensures client { OnOk result (view_at pool.new 0 ≡ view_at pool.old 0) }
    ensures bound { IfOk result (λ bound. bound ≡ true → IsBoundOnce pool.new × (directory.new.list ≡ name)) }
{
    let mut task = BindTask::make(0, key, own);
    for _ in 0..7u32 {
        match bind_next(pool, &mut task, directory, false)? {
            BindTurn::More => {}
            BindTurn::Bound => return Ok(true),
            BindTurn::Unreached => return Ok(false),
        }
    }
    Ok(false)
}

// The server hands the name of slot 0 to the client and its node, as its directory has it.
fn hand_name(pool: &mut PlainPool, node: &mut Node, books: &mut Books, directory: &Directory)
    requires bound { IsBoundOnce pool.old }
    requires nameless { IsNameless pool.old node.old }
    requires list { directory.now.list ≡ name }
    ensures root { HasRoot (view_at pool.new 1) }
    ensures stands { Stands pool.new node.new }
    ensures setup { pool.new.setup ≡ pool.old.setup }
{
    let nothing = books.take(0);
    let names = directory.list();
    pool.hand_over(1, &nothing, names);
    node.accept(&nothing, names);
}

/// The server binds `a`, and the client gets what it needs to put. Whether the binding came to its end.
pub(crate) fn name_key(
    alloc: Global,
    pool: &mut PlainPool,
    node: &mut Node,
    books: &mut Books,
    setup: Setup,
) -> Result<bool, Fail>
    requires dealt { IsDealt pool.old }
    requires nameless { IsNameless pool.old node.old }
    requires books { HaveGiven pool.old.setup books.old }
    requires setup { pool.old.setup ≡ setup }
    ensures { IfOk result (λ named. named ≡ true → Stands pool.new node.new × HasRoot (view_at pool.new 1)) }
{
    let mut directory = Directory::make(alloc, setup.pool)?;
    let own = next_buffer(books);
    if !bind_key(pool, &mut directory, Key::of(b"a")?, own)? {
        return Ok(false);
    }
    hand_name(pool, node, books, &directory);
    Ok(true)
}
