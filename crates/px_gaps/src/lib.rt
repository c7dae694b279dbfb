//! Gaps: what is missing for a formula in a world model, and what else is known of it there.
//!
//! # Calling it
//!
//! - [`gaps`] takes a formula that has no answer from a world model, and returns its gaps, ascending, each once: the atoms
//!   that are closed as gaps in some list of gap proofs of it (the difference of Fikes and Nilsson 1971, as an unfinished
//!   proof). A gap is an atom whose predicate some operator adds and that isn't provable. The caller has to know that the
//!   formula has no answer, as `Unprovable` of `px_prover` says it. There are at most twelve variables, and where there is
//!   one the problem has an object. It stops with [`AskErr::ShapeLimit`] where the question meets the shape limit. This error has
//!   the formula at which it does, which is the question's own or one atom that a gap would close, and the first shapes.
//! - [`try_formula`] says whether a formula has an answer ([`Tried`]), and [`known_formula`] what is known of one that has none:
//!   that it is open, with the gaps, that it isn't open, or that finding the gaps meets the shape limit ([`Known`]). The limit
//!   is an answer like the others, with its question ([`MetLimit`]), so their only error is `NoMemory`.
//! - All of these have a valid problem as their condition, and a formula of the problem's atoms over its variables.
//! - Crates above ask through an [`Asker`], which counts the questions. [`ask_gaps`] asks one question of gaps, of at most 4,096
//!   variables, and returns the gap patterns with those of their atoms that are provable ([`GapAnswer`]). [`choices_of`] gives
//!   the objects for the variables that fit their sorts ([`Sorting`]) and under which a pattern closes none of these.
//!   [`is_provable`] asks about one atom.
//! - [`Bounds`] says by the numbers of shapes of each predicate that a formula stays below the limit, whatever the facts are.
//!   [`is_concluded`] says whether an axiom concludes a predicate, and [`forms_of`] gives the atoms of patterns, one of those that
//!   differ only by the names of their variables.
//! - [`unbound`], [`bound`], [`open_variable`] and [`first_variable`] are for terms whose variables get objects one
//!   after the other.
//! - [`addable_alike`] says that an atom may be a gap for the prover exactly where an operator of the problem may add it.
//! - All calls answer `NoMemory` if there isn't enough memory, of which nothing more is said.
//!
//! The definitions are in `specs/`: `Needs` (formulas that are to be proved from facts, and when they have answers and gaps),
//! `Questions` (what is asked of a list of them, and where that meets the limit), `Known` (what is known of them), `GapAnswers`
//! (what one question of gaps says), `Bounds` (numbers of shapes) and `Addable` (the law). The others are about the way there; no public
//! clause cites `Apart`, `ByAtoms`, `Choices`, `Listed` and `Provable`.
//! Laws for callers are in `proofs/`, among them `GapLemmas` (the gaps of a formula and their limit, by what one question of gaps
//! says of it), `GapLists` and `GapAtoms`.
//!
//! Where a formula has no variables, its atoms have their proofs apart from each other. So [`gaps`] asks about one atom after the other
//! (`by_atoms`), if axioms conclude more than one of them, and if the shapes that the prover counts for each show that the whole formula
//! stays below the limit. Otherwise, or where a question about an atom meets the limit, it asks about the whole formula.
//!
//! Internally one question of gaps (`gap_answer`) asks the prover for the gap patterns of a formula, and which of the atoms
//! that they close have a proof. Atoms that differ only by the names of their variables are asked once (`forms`), with
//! their variables: where no instance has a proof, that is one question, else one of the variables is bound to each object
//! in turn (`asking`). Then no gap list is written out. Objects are chosen variable by variable, and a choice is given up as
//! soon as an atom of the pattern has a proof (`bindings`); atoms that share no variable are tried apart (`apart`). So `gaps`, which asks
//! for the patterns without their terms, finds the atoms that a pattern closes together with none that is provable (`missing`), and
//! callers get the objects for the formula's variables under which a pattern closes no provable atom (`choices`). There objects of another
//! sort than a variable has to have are passed over.
//!
//! The number of shapes is counted predicate by predicate (`bounds`): an atom is closed by a fact or a gap in at most two ways,
//! and by each Horn axiom that concludes it in as many ways as the atoms that are then to be proved, if the axiom has no
//! variable besides those of what it concludes.
#![tactic(auto)]

mod apart;
mod ask_err;
mod asker;
mod asking;
mod bindings;
mod bounds;
mod by_atoms;
mod choices;
mod differences;
mod facts;
mod forms;
mod gap_answer;
mod knowing;
mod known;
mod laws;
mod missing;
mod question;
mod sorting;

pub use ask_err::AskErr;
pub use asker::Asker;
pub use asking::is_provable;
pub use bindings::{bound, first_variable, open_variable, unbound};
pub use bounds::Bounds;
pub use choices::choices_of;
pub use differences::gaps;
pub use facts::is_concluded;
pub use forms::forms_of;
pub use gap_answer::{GapAnswer, ask_gaps};
pub use knowing::{known_formula, try_formula};
pub use known::{Known, Tried};
pub use laws::addable_alike;
pub use question::{MetLimit, Obligation, Question};
pub use sorting::{Sorting, sort_of};
