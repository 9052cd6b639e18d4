// What a walk costs that runs alone, each a contract of a function without a body.
ghost use Rattle.clover_walk.specs.Alone.{TagLaw, StartLaw, RaisedLaw};

/// A walk that runs alone from a tag with d links before the tail is at the tail after exactly 2 d + 1 accesses and
/// d turns, where so many turns do not reach the budget: a load and a raise for each link, and the load that shows the
/// tail. The words are as before but for the flushed copies of those links, which are raised.
pub fn tag_law()
    ensures { TagLaw }
{}

/// From where a walk begins it makes besides one load of a stale cursor's next word, one of the shortcut, one of a
/// stale shortcut's next word, and one of the root where the shortcut is empty or stale. There d is counted from the
/// tag from which the walk goes on, and each stale start makes a turn.
pub fn start_law()
    ensures { StartLaw }
{}

/// The raises of a chain's links leave the current copy of each word of the pool as it was.
pub fn raised_law()
    ensures { RaisedLaw }
{}
