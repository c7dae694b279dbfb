//! What every layer stands on: the error of a call that finds no memory, and lists that contracts can name.
//!
//! # Calling it
//!
//! - [`NoMemory`] is the error of a call that asked for memory and got none. `?` makes it from std's `AllocError`
//!   and from `AllocFailed`, whose value it drops.
//! - [`push`] puts an item at the end of a `Vec`, or answers `NoMemory` and leaves the list as it was. [`push_within`] puts it
//!   into a `Vec` that has room for it, as `reserve` makes it, and so cannot fail.
//! - [`Sequence`] is a `Vec` that contracts see as the list of its items. `Sequence::from_vec` makes one from a `Vec`, and
//!   `into_vec` returns the `Vec`; neither allocates. `Sequence::from_slice` copies a slice, `try_copy` a sequence.
//!   `as_slice` borrows the items. Sequences are compared, ordered and hashed as the lists of their items.
//! - The definitions in `specs/`, for the crates above: sets kept as ascending lists (`Sets`), with their laws (`SetLaws`),
//!   what is in a list (`ListLaws`), small laws of answers (`Answers`), how calls are counted (`Counting`), and the greatest
//!   numbers of 32 and of 64 bits (`Bounds`). In `proofs/`: steps of loops over lists (`Loops`).
#![tactic(auto)]

mod compared;
mod no_memory;
mod pushing;
mod sequence;
#[cfg(test)]
mod tests;

pub use no_memory::NoMemory;
pub use pushing::{push, push_within};
pub use sequence::Sequence;
