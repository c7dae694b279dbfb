//! The line of a script that characters are.
//!
//! # Calling it
//!
//! - [`first_token`] returns the first [`Token`] of a text and what follows it (`Begins` of `px_script`), or that nothing but blanks and a
//!   comment stands there (`IsIgnored`), or finds that a character begins none; and [`are_tokens`] returns whether a text is tokens
//!   (`Lexes`).
//! - [`formed_line`] returns the [`Line`] that a word and the text after it are: what the word is, where it may stand and what its atoms
//!   may be (its [`Row`]), what the first tokens of the text say ([`Said`], one token each), and what those to its end say ([`Rest`]). It
//!   is the line of the statement that the word and the text's tokens are (`Forms` of `px_script`), and there is none where they are no
//!   statement. The text is gone over token by token, and no list of its tokens is made.
//! - [`is_word`] returns whether a name may begin a line. The words stand in one table, `ROWS` of `rows`, but for `disturb`; what a
//!   word's line has follows from its row.
//! - [`open_of`] returns what a word says of a door.
//! - A line borrows its texts from the input.
//!
//! Of `specs/`, public clauses cite `Tokens`, `ItemViews` and `LineViews`: what the definitions see of tokens, of items and of lines.
#![tactic(auto)]

mod items;
mod lists;
mod parts;
mod reading;
mod rows;
mod series;
mod token;

pub use items::{Argument, Rest, Said, SignedAtom, WrittenBinding, WrittenRoomEdit};
pub use parts::Part;
pub use reading::{Line, formed_line};
pub use rows::{Row, is_word};
pub use series::open_of;
pub use token::{BadToken, Token, are_tokens, first_token};
