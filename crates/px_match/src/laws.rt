//! Laws about the definitions. The calls do nothing.
ghost use Rattle.px_match.specs.Matching.{SensedIsOne};
ghost use Rattle.px_match.specs.WorkedDanger.{DangerKernels, DangerSensed};

/// What a sensing finds is determined.
pub fn sensed_is_one()
    ensures { SensedIsOne }
{}

/// A plan in which the first step would delete what the second needs if one object stood for two: it is a table, its kernel 1
/// fits exactly where its marks are true of two different objects, and the later kernels where theirs are.
pub fn danger_kernels()
    ensures { DangerKernels }
{}

/// What is sensed of that plan under some bindings: nothing where one object is bound for two, else the highest kernel, with the
/// first objects that make it proper.
pub fn danger_sensed()
    ensures { DangerSensed }
{}
