// The laws, each a contract of a function with an empty body.
ghost use Rattle.clover_sched.specs.Laws.{RunsStandLaw};

/// What stands over all runs is one legal history.
pub fn runs_stand_law()
    ensures { RunsStandLaw }
{}
