//! Laws about the definitions, each as the contract of a call that does nothing.
ghost use Rattle.px_question.specs.GapOrder.{GapListsAreOrdered};
ghost use Rattle.px_question.specs.Decided.{QuestionsAreDecided};
ghost use Rattle.px_question.specs.Determined.{FewOrLimited, FirstIsOne, GapListsAreOne, LimitsAreOne};
ghost use Rattle.px_question.specs.FewerFacts.{FewerFactsHaveNoMore};
ghost use Rattle.px_question.specs.FirstOfEach.{FirstIsOfEach};
ghost use Rattle.px_question.specs.Rows.{AnswersMakeRows};

/// The first answer of a formula is determined: the objects for the variables, and the proofs. This is a law about the
/// definitions: the call does nothing.
pub fn first_is_one()
    ensures { FirstIsOne }
{}

/// The first answer of atoms without variables is the first proof of each of them, in order. This is a law about the
/// definitions.
pub fn first_is_of_each()
    ensures { FirstIsOfEach }
{}

/// The proofs of an answer are proofs for a row of a support: over the problem's objects, from the atoms of their leaves,
/// which are the problem's and stand in the model at the places that the leaves name; and they stay so with other leaves
/// of the same atoms (`graft` in `px_proof` puts them in). This is a law about the definitions.
pub fn answers_make_rows()
    ensures { AnswersMakeRows }
{}

/// A question from fewer facts has no more proofs and shapes: its lists of proofs are lists of proofs from the other facts once their
/// leaves name the places there, and where fewer shapes than the limit exist from the other facts, fewer exist from these. This is a law
/// about the definitions.
pub fn fewer_facts_have_no_more()
    ensures { FewerFactsHaveNoMore }
{}

/// The shapes at a limit are determined, of proofs and of gap proofs. This is a law about the definitions.
pub fn limits_are_one()
    ensures { LimitsAreOne }
{}

/// A limit is not met where there are fewer shapes: those that exist, or those before a finished proof. Where there are fewer
/// of loose gap proofs, there are fewer of proofs, too. This is a law about the definitions.
pub fn few_or_limited()
    ensures { FewOrLimited }
{}

/// Proving a formula meets the limit, or has a first answer with fewer shapes before it, or has no answer and fewer shapes exist; for
/// unfinished gap proofs it is alike. What doesn't meet a limit stays below it. This is a law about the definitions.
pub fn questions_are_decided()
    ensures { QuestionsAreDecided }
{}

/// A formula has one list of gap lists. This is a law about the definitions.
pub fn gap_lists_are_one()
    ensures { GapListsAreOne }
{}

/// Gap lists are compared by objects and then by atoms, and are equal where both are. This is a law about `==` and `cmp`.
pub fn gap_lists_are_ordered()
    ensures { GapListsAreOrdered }
{}
