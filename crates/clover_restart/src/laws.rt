// The laws, each a contract of a function with an empty body.
ghost use Rattle.clover_restart.specs.Laws.{NextRunLaw};

/// The books and the directory of a restart are those of the words that all its stores leave, so the next run may begin with them.
pub fn next_run_law()
    ensures { NextRunLaw }
{}
