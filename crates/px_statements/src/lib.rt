//! The statement that a line of a script is.
//!
//! # Calling it
//!
//! - [`statement`] returns the [`Statement`] that a line in its form is, in a script with or without a building so far: a word, and what
//!   its line says, by type. It undoes `line_of`: where the line is that of a statement, this is the statement. And whatever the line, it is
//!   the statement that the table of the words (`Rows` of `px_script`) makes of its items.
//! - A statement borrows the lists of its line.
//!
//! Each word has a function that takes the items of its line apart. Of `specs/`, public clauses cite `StatementViews`, what the definitions
//! see of a statement and `UndoesLineOf`, and `FactLines`.
#![tactic(auto)]

mod statement_kinds;
mod statements;

pub use statement_kinds::Statement;
pub use statements::statement;
