// What a put, delete or swap costs that runs alone, the contract of a function without a body.
ghost use Rattle.clover_put.specs.Alone.{PutLaw};

/// A call that runs alone from a live tag with d links before the tail, and whose own version has c content words, is
/// over after exactly so many accesses: a put after 2 c + 2 d + 4; a delete after 2 d + 7, or 2 d + 5 where the tail is
/// a tombstone; a swap after 2 c + 2 d + 5 where its tag is the tail's and the tail has a value, and else after
/// 2 c + 2 d + 3. Where its walk does not begin at a live cursor, it makes the loads of the way to such a tag besides,
/// as the walk's law counts them. The own tag's buffer is none of the chain's, and its turns do not reach the budget.
/// The last access is the store of the shortcut behind a commit, or the load that decides that nothing is committed.
pub fn put_law()
    ensures { PutLaw }
{}
