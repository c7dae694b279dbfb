//! Laws about the definitions. The calls do nothing.
ghost use Rattle.px_terms.specs.Before.{AtomsAreOrdered};
ghost use Rattle.px_terms.specs.DropPlan.{DropPlanFact};
ghost use Rattle.px_terms.specs.Lamps.{ContradictionFact, LampFact};
ghost use Rattle.px_terms.specs.MergedNames.{MergedNamesFact};
ghost use Rattle.px_terms.specs.SortedInstances.{SortedInstancesFact};

/// Two objects may be one thing (Lifschitz 1987). Where they are, dropping the first by an operator that deletes its atom leaves the
/// atom of the second; where they are two, the state without either is a successor that the operator describes.
pub fn merged_names()
    ensures { MergedNamesFact }
{}

/// The plan that drops the first of two objects has a run, needs that object's atom, doesn't keep it, and keeps the atom of the
/// second (Lifschitz 1987).
pub fn drop_plan()
    ensures { DropPlanFact }
{}

/// A lamp is on or off, and shines where it is on. These axioms hold in some states and fail in others. Switching the lamp on carries
/// to "something shines", which no operator adds: it follows from the axiom. Without the axioms, or without the step, it
/// doesn't carry there.
pub fn lit_lamp()
    ensures { LampFact }
{}

/// No state meets axioms that contradict each other, so under them any facts carry any steps to any goal.
pub fn contradiction()
    ensures { ContradictionFact }
{}

/// Terms, atoms and operator instances are ordered by number, then by arguments from the left; objects ascend by number and come
/// before variables, and these before the wild card. `==` of each is equality.
pub fn atoms_are_ordered()
    ensures { AtomsAreOrdered }
{}

/// Of two objects one has a sort, and of an operator's two parameters one: of its four instances those fit whose object at the sorted
/// parameter has the sort.
pub fn sorted_instances()
    ensures { SortedInstancesFact }
{}
