//! The law. The call does nothing.
ghost use Rattle.px_demo_script.specs.Value.{DemoIsScript};

/// The bytes of each demo are a script, and about its building and its errands.
pub fn demo_is_script()
    ensures { DemoIsScript }
{}
