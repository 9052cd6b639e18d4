// The laws, each a contract of a function with an empty body.
ghost use Rattle.clover_image.specs.Laws.{ChosenLaw};

/// Each choice leaves an image of a power cut.
pub fn chosen_law()
    ensures { ChosenLaw }
{}
