//! Laws about the definitions. The calls do nothing.
ghost use Rattle.px_diff.specs.Models.{RelevanceOverModels};
ghost use Rattle.px_diff.specs.Stacks.{RelevanceOverStacks};

/// What is relevant and may be pushed over a stack is what is so over the empty stack, without the stack's entries. The same holds of the
/// questions that meet the limit.
pub fn relevance_over_stacks()
    ensures { RelevanceOverStacks }
{}

/// The same entries are open, and the same may be pushed, in all models with the same deciding facts.
pub fn relevance_over_models()
    ensures { RelevanceOverModels }
{}
