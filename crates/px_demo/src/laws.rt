//! The demo, worked out by hand. The call does nothing.
ghost use Rattle.px_demo.specs.Worked.{WorkedDemo};

/// The numbers, the rooms and the script of three rooms and the seed 0 are as worked out.
pub fn worked_demo()
    ensures { WorkedDemo }
{}
