//! Laws about what is written. The calls do nothing.
ghost use Rattle.px_run.specs.Laws.{TextsAreOne, TranscriptsCarry};
ghost use Rattle.px_run.specs.Rooms.{RoomsSuffice};

/// The bytes determine what is written for all commands of a script, though a search that met the limit of shapes may report one question
/// or another. What is written for the first commands begins it.
pub fn texts_are_one()
    ensures { TextsAreOne }
{}

/// Each plan of a transcript carries: in every run from a state in which the world's atoms hold, in whose states the axioms hold and
/// whose steps leave what the operators describe, each precondition is met where it is reached, and a run of all steps ends in the goal.
/// So does, to its table's goal, the rest of each stored and each learned table from each proper instance of each of its kernels.
/// Where a pursuit of a transcript ends at the goal, the goal holds wherever the axioms and the world's atoms do, and it made at most one
/// search more than disturbances were recorded.
/// The bytes of each certificate of a transcript are one, and what they claim is so. With a building the world's atoms are the facts of a
/// state of it, which the replies so far have left.
pub fn transcripts_carry()
    ensures { TranscriptsCarry }
{}

/// A script is answered, unless memory runs out, if its bytes come from a source that never fails and the sink is sure to take the
/// transcript. The line of a demo and that of a certificate are written if the sink is sure to take as many bytes as these lines have at
/// most (`px_lengths`).
pub fn rooms_suffice()
    ensures { RoomsSuffice }
{}
