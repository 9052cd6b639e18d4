// What a get costs that runs alone, the contract of a function without a body.
ghost use Rattle.clover_get.specs.Alone.{GetLaw};

/// A get that runs alone from a live tag with d links before the tail is decided by exactly its access number
/// 2 d + 2 + c, where c is the number of the tail's content words: one for the meta word, and one for each eight bytes
/// of a value or part of them. It is over there and not before, where its turns do not reach the budget, and the room
/// then has the value. Where its walk does not begin at a live cursor, it makes the loads of the way to such a tag
/// besides, as the walk's law counts them.
pub fn get_law()
    ensures { GetLaw }
{}
