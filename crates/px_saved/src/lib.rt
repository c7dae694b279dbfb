//! What `save` prints is read back: the block of a saved table after a script is the same script with that table last.
//!
//! # Calling it
//!
//! - `specs/ReadBack` says it of bytes. Let bytes that end with a line feed be a script of version 2, or a later one, that has no command,
//!   has this problem and these names of objects, predicates and operators, has fewer than 32 tables, and has no result of the table's name
//!   (`IsReadyFor`). Then these bytes followed by the text are the same script with that name and table last (`IsReadBack`). For a reply it
//!   is `ReplyIsReadBack`, which says nothing of replies that save no table.
//! - [`saved_is_read_back`] has it of each table within the limits of a block (`IsSavedTable` of px_script, which also asks that the
//!   parameters have the sorts of their places and that the goal's last variable occurs), under names that are names and a name of the
//!   table that is no longer than a script's may be. It is a law: a call that does nothing.
#![tactic(auto)]

ghost use Rattle.px_saved.specs.ReadBack.{SavedIsReadBack};

/// The text of a saved table is read back: after a script that is ready for it, it is the same script with the table last.
pub fn saved_is_read_back()
    ensures { SavedIsReadBack }
{}
