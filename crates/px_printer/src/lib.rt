//! Replies and their texts.
//!
//! # Calling it
//!
//! - [`Reply`] is what a command answers, and [`reply_text`] gives its text: for `Certified` the certificate's bytes, and for every other
//!   reply lines of text. The text is `reply_text` of `specs/Replies.antt`, which reads as a table: for each reply its words, then its
//!   list of lines. Each line ends with a line feed; an indented line begins with two spaces; numbers are decimal; words such as `steps`
//!   and `moves` never change with the number before them. The rows of a shown table are in `specs/Rows.antt`, the block of a saved one in
//!   `specs/Blocks.antt`, the turns of a run or a pursuit ([`Turn`]) in `specs/Turns.antt`, how a pursuit ends ([`PursueEnd`]) in
//!   `specs/PursuitEnds.antt`, the nodes and the end of a search tree in `specs/Trees.antt`, what two executors do ([`DuoLine`]) in
//!   `specs/DuoLines.antt`, and the words for why a plan isn't learned ([`Why`]), a table isn't written ([`SaveWhy`]) and a table isn't
//!   edited ([`EditWhy`]) in `specs/Whys.antt`.
//! - `reply_text` asks that each number which it prints as a name has that name (`IsReplyNamed`). If a search met a limit, nodes and
//!   shapes are only counted, so nothing is asked of their numbers. `specs/NamedLaws`, which no clause cites, has that a proof has its
//!   names where its leaves and terms have them.
//! - [`ShownTerm`], [`ShownAtom`] and [`ShownInstance`] borrow a term, an atom or an operator instance and the names, and
//!   print as in a script: `NAME(ARGUMENT,ARGUMENT)`, and `NAME` alone without arguments. [`Spelling`] says how many of the variables are
//!   parameters, the others being variables of a goal, and how both are spelled: in the rows of a shown table, or in the block of a saved
//!   one. Each is made by a struct literal, where the caller shows that the numbers have their names; what it writes is its `output`, a
//!   definition of `specs/Texts.antt`.
//! - [`usage_text`], [`refused_text`], [`yes_text`] and [`no_text`] give the texts that answer no command: how the program is called,
//!   where and why bytes are refused, and whether a certificate is right (`specs/Notices.antt`).
//! - A new reply is a variant of `Reply`, an equation of `IsReplyNamed` and of `reply_text`, and an arm of `push_reply` or `push_on_table`
//!   in `src/text.rt`: one function that appends each kind of line, and one loop for each list of lines (those of tables, blocks, turns,
//!   trees and two executors are in `src/table_text.rt`, `src/block_text.rt`, `src/turn_text.rt`, `src/tree_text.rt` and
//!   `src/duo_text.rt`).
#![tactic(auto)]

mod block_text;
mod duo_line;
mod duo_text;
mod laws;
mod notice;
mod pursue_end;
mod reply;
mod shown;
mod spelling;
mod table_text;
mod text;
mod tree_text;
mod turn;
mod turn_text;

pub use duo_line::{DuoEnd, DuoLine};
pub use laws::{worked_block, worked_texts};
pub use notice::{no_text, refused_text, usage_text, yes_text};
pub use pursue_end::PursueEnd;
pub use reply::{EditWhy, Reply, SaveWhy, Why};
pub use shown::{ShownAtom, ShownInstance, ShownTerm};
pub use spelling::Spelling;
pub use text::reply_text;
pub use turn::{Turn, TurnEnd};
