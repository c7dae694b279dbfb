//! A law about the definitions, for callers.
ghost use Rattle.px_prover.specs.PatternLists.{PatternsAreLists};

/// The patterns of a formula stand for its gap lists. This is a law about the definitions: the call does nothing.
pub fn patterns_are_lists()
    ensures { PatternsAreLists }
{}
