// The law of the books, a contract of a function with an empty body.
ghost use Rattle.clover_alloc.specs.Calls.{NoTagTwiceLaw};

/// Whatever calls are made of the books of a pool, no tag is given twice, and none at the wear.
pub fn no_tag_twice_law()
    ensures { NoTagTwiceLaw }
{}
