// The laws, each a contract of a function with an empty body.
ghost use Rattle.clover_rule.specs.Cut.{CutLaw};
ghost use Rattle.clover_rule.specs.Marks.{MarksLaw};
ghost use Rattle.clover_rule.specs.Preset.{PresetLaw};
ghost use Rattle.clover_rule.specs.Laws.{PartsLaw, LongestLaw, StepLaw, ToldLaw, TableStepLaw, RiseLaw, AccessLaw, OperationLaw, OpeningLaw, BlankLaw, ClientLaw, GrantLaw, AcceptLaw, HandOverLaw, NoteLaw, JoinNoteLaw, SpentLaw, OneReadingLaw, RestartLaw, RestartedLaw, ReopenLaw, UsedLaw, MarkLaw};

/// The twelve parts of the rule follow from the helping facts.
pub fn parts_law()
    ensures { PartsLaw }
{}

/// The preset pool meets the rule.
pub fn preset_law()
    ensures { PresetLaw }
{}

/// The history is the longest that a view holds.
pub fn longest_law()
    ensures { LongestLaw }
{}

/// Each step that its actor may make keeps the rule.
pub fn step_law()
    ensures { StepLaw }
{}

/// Each step tells its actor what the rule says of it, before and after.
pub fn told_law()
    ensures { ToldLaw }
{}

/// Each step is one that a table whose rule is this one allows.
pub fn table_step_law()
    ensures { TableStepLaw }
{}

/// No step lets a copy of a next word fall.
pub fn rise_law()
    ensures { RiseLaw }
{}

/// The access of a step comes back with what the words give.
pub fn access_law()
    ensures { AccessLaw }
{}

/// Each image of a power cut is sound and stands for the map of a history that survived.
pub fn cut_law()
    ensures { CutLaw }
{}

/// Each operation of a port that is meant as a step is one that a table allows.
pub fn operation_law()
    ensures { OperationLaw }
{}

/// From words whose copies are one sound image a run begins, over views that begin.
pub fn opening_law()
    ensures { OpeningLaw }
{}

/// Words of 0 are such words.
pub fn blank_law()
    ensures { BlankLaw }
{}

/// The server makes a client.
pub fn client_law()
    ensures { ClientLaw }
{}

/// The server splits off a grant.
pub fn grant_law()
    ensures { GrantLaw }
{}

/// A client takes a grant in.
pub fn accept_law()
    ensures { AcceptLaw }
{}

/// The server hands a client a batch and names in one event.
pub fn hand_over_law()
    ensures { HandOverLaw }
{}

/// A note is split off a client.
pub fn note_law()
    ensures { NoteLaw }
{}

/// The server takes a note in.
pub fn join_note_law()
    ensures { JoinNoteLaw }
{}

/// What is left of a view that another one took in may go.
pub fn spent_law()
    ensures { SpentLaw }
{}

/// An image is read in one way, however it was found sound.
pub fn one_reading_law()
    ensures { OneReadingLaw }
{}

/// Each image of a restart that stopped anywhere rests as the image that it began from, with the same map and used tags.
pub fn restart_law()
    ensures { RestartLaw }
{}

/// All stores of a restart leave of a sound image what a restart is to leave.
pub fn restarted_law()
    ensures { RestartedLaw }
{}

/// Behind all stores of a restart a run may begin, with the same map and used tags.
pub fn reopen_law()
    ensures { ReopenLaw }
{}

/// The tags in the map that a cut leaves are used ones.
pub fn used_law()
    ensures { UsedLaw }
{}

/// Which commits a cut took is seen at the map that is left.
pub fn mark_law()
    ensures { MarkLaw }
{}

/// Which commits a cut took is seen at the ends of the chains, in the current copies and in the image that is left.
pub fn marks_law()
    ensures { MarksLaw }
{}
