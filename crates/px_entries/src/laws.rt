//! Laws about the definitions. The calls do nothing.
ghost use Rattle.px_entries.specs.AnswerRows.{AnswersSupport};

/// The proofs of an answer, with leaves of the same atoms, are a row of the support from which `build` of `px_table` makes a table.
pub fn answers_support()
    ensures { AnswersSupport }
{}
