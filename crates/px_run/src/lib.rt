//! What the program does: it reads a script, answers its commands, and writes the replies; or it says whether a certificate is right.
//!
//! # Calling it
//!
//! - [`planex_main`] is the program without its streams: it takes the words, a source and a sink, which may be
//!   in memory, and returns a `Status`. Its contract is one table over the statuses (`specs/Outcomes`): what each
//!   status says of what came from the source and of what was written.
//! - The single word `run` answers the commands of the script that comes from the source. The words `demo ROOMS SEED` make the script of
//!   `px_demo`, which always is one (`px_demo_script`), answer its commands, and write one line that sums up the replies (the clauses
//!   `demo_completes`, `demo_completes_surely` and `demo_prefix` of the top call, and `right`). The single word `check` says whether the
//!   certificate that comes from the source is right (`certifies`, the clauses that begin with `check_`, and `right`). Every other list of
//!   words is answered by how the program is called.
//! - What is written for a script is a transcript (`px_session/specs/Transcripts`): one lawful reply for each command, in
//!   order, each in the state that the one before left. `Lawful` of `px_session` defines which replies are lawful.
//! - The bytes determine it, and what is written for the first commands begins it ([`texts_are_one`]). Each plan in it
//!   carries, and so does each table that is stored or learned on the way, from each proper instance of each of its kernels
//!   ([`transcripts_carry`]; the clause `carries` of the top call says it of the bytes that came).
//! - Bytes that aren't a script are refused with the line, the code and the limit of their first fault, as `px_script`
//!   defines it. Nothing is answered before the whole script was read. Bytes that aren't a certificate are refused with their first bad
//!   line, as `px_cert` defines it, and the code 13.
//! - After a write that failed, the replies before it and a proper prefix of the next text were written, and so a proper prefix of what
//!   the bytes demand (`HasPrefix` in `specs/Prefixes`). Each reply is written as a whole; no clause says so, a test shows it.
//! - How much room suffices in a sink is in `specs/Rooms` ([`rooms_suffice`]): for the transcript, and for the line of a demo and that of
//!   a certificate, which have bounds (`px_lengths`).
//! - A script or a certificate has at most 1,048,576 bytes. Where more came, the answer is `TooLong`.
//! - No public clause cites `specs/Answers` and `specs/Sums`.
#![tactic(auto)]

mod check;
mod counts;
mod demo;
mod laws;
mod running;
mod status;
mod top;

pub use laws::{rooms_suffice, texts_are_one, transcripts_carry};
pub use status::Status;
pub use top::planex_main;
