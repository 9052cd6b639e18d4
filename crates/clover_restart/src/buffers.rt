// What the buffers of a sound image come to: which of them go on to their next generation, and the books.
ghost use Rattle.std.specs.Prelude.{◌≡◌, ◌≢◌, ℕ, ◌*◌, ◌+◌, ◌<◌, ◌≤◌, [], ◌∷◌, ◌++◌, true, map, length, slice_index_or, OnOk};
ghost use Rattle.clover_words.specs.Place.{IsBuffer};
ghost use Rattle.clover_rule.specs.Cut.{IsSound};
ghost use Rattle.clover_rule.specs.Memory.{gen};
ghost use Rattle.clover_rule.specs.Sound.{Sound};
ghost use Rattle.clover_rule.specs.declared.view.RestartStore.TheVariants.{Lift, LiftFlushed};
ghost use Rattle.clover_alloc.specs.Ledger.{IsLedger, Moves, new_ledger};
ghost use Rattle.clover_alloc.specs.declared.line.Place.TheVariants.{Free as IsFree};
ghost use Rattle.clover_restart.specs.Lifting.{AreLifted, IsMark, lift_of, next_line};
ghost use Rattle.clover_restart.specs.Reading.{decoded, number_at, number_of};
ghost use Rattle.clover_restart.specs.Slots.{mark_at};
ghost use Rattle.clover_restart.specs.Stores.{store_of};

use crate::reading::next_in;
use crate::store::Store;
use clover_alloc::{Books, Place};
use clover_image::Image;
use clover_list::OutOfMemory;
use clover_words::{Buffer, Side, Tag};

/// Reads the next word of each buffer once. The marks say of each which place it has on the chains that are kept. The
/// stores come behind those that are there, and the books, which are new, have each buffer's line then.
pub fn read_buffers(
    image: &Image,
    marks: &[Place],
    stores: &mut Vec<Store>,
    books: &mut Books,
) -> Result<(), OutOfMemory>
    requires sound { IsSound image.now.pool image.now.words }
    requires sized { length marks.now ≡ image.now.pool.nodes * image.now.pool.buffers }
    requires marks { (sound : Sound image.now.pool (decoded image.now)) → (q : ℕ) → q < image.now.pool.nodes * image.now.pool.buffers → slice_index_or marks.now q IsFree ≡ mark_at image.now.pool (decoded image.now) sound image.now.pool.slots (number_at image.now.pool q) }
    requires new { (books.old ≡ new_ledger image.now.pool) × IsLedger books.old }
    ensures whole { OnOk result (IsLedger books.new × (books.new.pool ≡ image.now.pool) × (books.new.fresh ≡ true)) }
    ensures read { OnOk result ((sound : Sound image.now.pool (decoded image.now)) → AreLifted image.now.pool (decoded image.now) sound (image.now.pool.nodes * image.now.pool.buffers) stores.old.items stores.new.items books.new) }
{
    let pool = image.pool();
    for number in 0..pool.total() {
        let buffer = pool.buffer(number);
        read_buffer(image, buffer, marks[number as usize], stores, books)?;
    }
    Ok(())
}

// Reads the next word of a buffer that has this mark.
fn read_buffer(
    image: &Image,
    buffer: Buffer,
    mark: Place,
    stores: &mut Vec<Store>,
    books: &mut Books,
) -> Result<(), OutOfMemory>
    requires sound { IsSound image.now.pool image.now.words }
    requires within { IsBuffer image.now.pool buffer }
    requires mark { IsMark image.now.pool.wear mark (gen ((decoded image.now).next (number_of buffer))) }
    requires pool { books.old.pool ≡ image.now.pool }
    requires fresh { books.old.fresh ≡ true }
    ensures stores { OnOk result (map store_of stores.new.items ≡ map store_of stores.old.items ++ lift_of image.now.pool.wear mark (number_of buffer) (gen ((decoded image.now).next (number_of buffer)))) }
    ensures books { OnOk result (Moves books.old buffer (next_line image.now.pool.wear mark (gen ((decoded image.now).next (number_of buffer)))) books.new) }
    ensures whole { OnOk result (IsLedger books.new) }
{
    let wear = image.pool().wear;
    let own = next_in(image, buffer).own;
    if mark != Place::Free {
        books.restore(buffer, own, mark);
        return Ok(());
    }
    if own >= wear {
        books.restore(buffer, own, Place::Worn);
        return Ok(());
    }
    lift(stores, buffer, own + 1)?;
    let place = if own + 1 == wear {
        Place::Worn
    } else {
        Place::Free
    };
    books.restore(buffer, own + 1, place);
    Ok(())
}

// The buffer goes on to this generation, in both copies.
fn lift(stores: &mut Vec<Store>, buffer: Buffer, generation: u32) -> Result<(), OutOfMemory>
    requires node { buffer.node < 64 }
    requires index { buffer.index < 65536 }
    requires generation { generation < 1048576 }
    ensures { OnOk result (map store_of stores.new.items ≡ map store_of stores.old.items ++ Lift (number_of buffer) generation ∷ LiftFlushed (number_of buffer) generation ∷ []) }
{
    let tag = Tag {
        node: buffer.node,
        index: buffer.index,
        generation,
    };
    stores.push(Store::Lift(tag, Side::Current))?;
    stores.push(Store::Lift(tag, Side::Flushed))?;
    Ok(())
}
