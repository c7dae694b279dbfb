//! Which replies to the commands of a script are lawful, and what is to be written for a script.
//!
//! A [`Session`] answers the commands of a script. The definitions that it meets are of all commands, and so are their laws.
//!
//! # Calling it
//!
//! - [`Session::new`] takes a [`px_script::Script`] that was read. [`Session::execute`] answers command `k`, each once and in
//!   order. Its reply is lawful, each number that it prints as a name has one, the bytes of a certificate are one, a block that it prints
//!   is read back (`px_saved`), and after a refusal for memory the session is as it was. Contracts see a session as a `SessionValue`
//!   (`specs/Opened`); what it keeps is in `specs/KeptSessions`.
//! - With a building the world's atoms are the facts of a state of it, from the opening on and after each lawful reply, and the building
//!   takes each recorded edit. A run or a pursuit leaves the state that the edits and steps of its turns leave, one after the other, and
//!   two executors the one that their steps leave. Any other command leaves the state as it was (`specs/RoomRuns`, [`rooms_are_kept`]).
//! - A `SessionState` in `specs/Sessions` has the world's atoms, the tables of the stored plans by name, the learned tables by
//!   name in the order of learning, and the disturbances that are recorded for the next run. `opening` is the one before the
//!   first command: its learned tables are those that the script has saved. An `Edit` is one of atoms or one of a building.
//! - `Lawful` in `specs/Lawful` says which reply a command may have in a state, and which state it leaves: one relation for all
//!   commands, a line for each; what is asked for of a table, as by `show`, stands in `specs/Asked`. It stands on the ends of a search
//!   and its tree (`px_ends`), generalising (`px_general`), editing (`px_edit`), certificates (`px_cert`), the executor's runs
//!   (`px_planex`, `px_turns`), two executors in one world (`px_duo`, `specs/DuoRuns`), pursuits (`px_pursue`) and tables by name
//!   (`px_library`).
//! - `IsSession` is what a session keeps: the world's atoms are a set; the table of each stored plan has no parameters, and its
//!   own steps delete nothing that its later rows rest on; there are at most 32 learned tables, none of them too long or with a
//!   proof that is too high. The opening state of a script is like this, and each lawful reply leaves such a state
//!   ([`sessions_are_kept`], which also says that these tables' kernels carry, and that atoms and edits of the problem stay so,
//!   `IsOwnState` in `specs/OwnStates`).
//! - All tables of a session can be written in a block (`specs/Writable`, [`tables_stay_writable`]): each that is printed so is within the
//!   limits of a table's block, and the bytes that `certify` prints are a certificate, whose claim is right (`specs/CertifiedReplies`,
//!   [`certificates_are_accepted`]).
//! - A session's state and a command have at most one lawful reply ([`lawful_is_one`]; where a search met the limit of shapes, one
//!   of several questions may be reported, and the text is one).
//! - `Transcript` in `specs/Transcripts` is what is to be written for the bytes of a script: the texts of lawful replies to its
//!   commands, one after the other. `Summary` in `specs/Demo` is the line of the demo, whose script
//!   `px_demo` makes. Both are determined ([`answers_are_one`], [`transcripts_are_one`]).
//! - Which of some causes of a refusal comes first, and that nothing has changed after a name or a parameter is unknown, is in
//!   `specs/Causes` ([`causes_in_order`]), with some replies that aren't lawful ([`refused_replies`]).
//! - Each lawful reply has a name for each number that it prints as one, and so have the learned tables (`specs/Named`,
//!   [`replies_are_named`]).
//! - A run by edits of atoms alone, or of rooms alone, is a session's run with the same disturbances (`specs/Runs`,
//!   [`one_kind_runs`]). A run that a reply prints has few turns, and is a trace of its events (`specs/ToldRuns`,
//!   [`told_runs`]). What two executors did, line by line, is a trace, too (`specs/ToldDuos`, [`told_duos`]), and so is
//!   each run of a pursuit, whose searches and turns are few; where it ends at the goal, that holds (`specs/ToldPursuits`,
//!   [`told_pursuits`]). A printed run that has sensed a kernel, and that nothing disturbs after that, reaches the goal
//!   (`specs/Undisturbed`, [`undisturbed_runs`]).
//! - A tree has no more nodes than its command says, each found from one before it; and with as many nodes it ends as a plan's search
//!   does (`specs/ToldTrees`, [`told_trees`]).
//! - A small script is worked out with its text ([`worked_session`]), and so are the demo's line for five replies ([`worked_demo`]),
//!   and the states that the turns of a run in a building leave ([`worked_rooms`]).
//! - The laws are calls that do nothing. No public clause cites `specs/Learning`, `specs/Planning` and `specs/Running`.
//!
//! # How a run takes memory
//!
//! A `run` asks for all its memory before the first turn: room for each turn that there may be, and for each atom that edits and steps
//! may add (`px_turns`). It goes on in a copy of the world's atoms, or in the building itself (`place`, `running`). So does a `duo`, before
//! its first event (`duo_run`, `duo_lines`; `specs/Running`). A `pursue` asks for memory before each of its searches and runs, so it goes
//! on in a copy of the building, too (`pursuing`).
#![tactic(auto)]

mod asking;
mod commands;
mod duo_lines;
mod duo_run;
mod edit;
mod growing;
mod laws;
mod learning;
mod planning;
mod plans;
mod pursuing;
mod run_world;
mod running;
mod session;
mod state;
mod stored_runs;

pub use laws::{
    answers_are_one, causes_in_order, certificates_are_accepted, lawful_is_one, one_kind_runs,
    refused_replies, replies_are_named, replies_exist, rooms_are_kept, sessions_are_kept,
    tables_stay_writable, told_duos, told_pursuits, told_runs, told_trees, transcripts_are_one,
    transcripts_exist, undisturbed_runs, worked_demo, worked_rooms, worked_session,
};
pub use session::Session;
