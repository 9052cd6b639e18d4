// How the caller of an access says which step it means. Nothing of it stands at run time.
use std::marker::Brand;

/// Names, for the caller of an access, the step that the access is meant as.
pub trait StepName {
    ghost use Rattle.std.specs.Prelude.{Bool};
    ghost use Rattle.clover_rule.specs.Steps.{Step};

    /// The step: its kind, the slot and the tag that it is for, and the entry that it adds where it decides.
    ghost step: { Step };

    /// Whether the access is the first of its call.
    ghost first: { Bool };
}

impl StepName for Brand {
    ghost use Rattle.std.specs.Prelude.{false};
    ghost use Rattle.clover_rule.specs.Steps.{ReadCount};

    ghost step = { ReadCount };

    ghost first = { false };
}
