// Laws of the server and its view, for the layer that makes the server and hands its batches over, and of what the
// rule says of free buffers and of tags. They do nothing.
ghost use Rattle.clover_server.specs.Laws.{FirstLaw, FreeLaw, HandedLaw, OnceLaw};

/// A server that is made with new books and an empty directory agrees with the server's view as a run begins.
pub fn first_law()
    ensures { FirstLaw }
{}

/// Once a batch that was ahead of the view is handed over, the server agrees with its view again.
pub fn handed_law()
    ensures { HandedLaw }
{}

/// A buffer that the books have as free is on no chain and in no stock, and all that is known of it was passed.
pub fn free_law()
    ensures { FreeLaw }
{}

/// No tag is handed out twice in a history.
pub fn once_law()
    ensures { OnceLaw }
{}
