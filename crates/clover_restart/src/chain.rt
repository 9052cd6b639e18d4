// The chain of a slot in a sound image: the tags from its root version on, each behind the one that links to it.
ghost use Rattle.std.specs.Prelude.{Some, IfOk, map};
ghost use Rattle.clover_words.specs.Tag.{tag_number};
ghost use Rattle.clover_rule.specs.Cut.{IsSound};
ghost use Rattle.clover_rule.specs.Image.{Chain};
ghost use Rattle.clover_restart.specs.Reading.{decoded};
ghost use Rattle.clover_restart.specs.Chaining.{HasChain};

use crate::reading::next_in;
use clover_image::Image;
use clover_list::OutOfMemory;
use clover_words::Tag;

/// Fills the list with the tags of the chain that begins with this root version.
pub fn read_chain(image: &Image, root: Tag, chain: &mut Vec<Tag>) -> Result<(), OutOfMemory>
    requires sound { IsSound image.now.pool image.now.words }
    requires chain { HasChain image.now.pool (decoded image.now) (Some (tag_number root)) }
    ensures { IfOk result (λ u. Chain (decoded image.now) (Some (tag_number root)) (map tag_number chain.new.items)) }
{
    chain.clear();
    let mut at = Some(root);
    while let Some(tag) = at {
        chain.push(tag)?;
        at = next_in(image, tag.buffer()).link;
    }
    Ok(())
}
