// The laws, each a contract of a function with an empty body.
ghost use Rattle.clover_run.specs.Costs.{CostLaw};
ghost use Rattle.clover_run.specs.Reopening.{NewSideLaw};

/// A server agrees with its view as a run begins behind a power cut.
pub(crate) fn new_side_law()
    ensures { NewSideLaw }
{}

/// The accesses of a call that runs alone are its own since it last started, before that at most one load of the count,
/// and the server's.
pub(crate) fn cost_law()
    ensures { CostLaw }
{}
