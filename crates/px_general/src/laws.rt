//! Laws about the definitions. The calls do nothing.
ghost use Rattle.px_general.specs.General.{GeneralIsOne, GeneralsExist};
ghost use Rattle.px_general.specs.WorkedGeneral.{GeneralFacts};

/// A plan whose own steps delete nothing that its later rows rest on has at most one general table, proofs included.
pub fn general_is_one()
    ensures { GeneralIsOne }
{}

/// Each plan has a general table, whatever its length, its height and its width: the limits of `generalise` are those of its work alone.
pub fn generals_exist()
    ensures { GeneralsExist }
{}

/// A plan that touches one thing twice: its general table has two parameters, numbered as they occur in the marks, both of the one sort.
/// Neither the plan itself generalises it nor the table with one parameter for both things, though the problem has but one thing of that
/// sort, nor the one whose parameters have no sort. It takes three variables to generalise it.
pub fn worked_general()
    ensures { GeneralFacts }
{}
