//! Laws about the definitions. The calls do nothing.
ghost use Rattle.px_edit.specs.EditClaims.{EditingIsSound};
ghost use Rattle.px_edit.specs.WorkedEdits.{WorkedEdits};

/// Of what may be edited there is one edited table. It is a table, and each of its steps serves a row. What is wanted is kept, nothing past
/// the prefix is, and no kept row rests on a step that is dropped. Its parameters occur, and are numbered as they first occur. It may be used
/// wherever the first steps may be, but where a kept step deletes a wanted add.
pub fn editing_is_sound()
    ensures { EditingIsSound }
{}

/// The general table of the example of 1972, edited, and which steps of a plan for three blocks are kept.
pub fn worked_edits()
    ensures { WorkedEdits }
{}
