//! The prover: the first proof of a formula, and what a formula lacks for one, each with an exact limit.
//!
//! # Calling it
//!
//! All calls take a valid problem, a formula of the problem's atoms, how many variables it has, and a world model. Where
//! there is a variable, the problem has an object. They ask for objects that make each atom of the formula provable: by a
//! fact of the model, or by linear resolution with ancestors from the problem's axioms, within the problem's height.
//!
//! [`prove`] is for at most twelve variables (`MOST_FORMULA_VARIABLES` of `px_terms`). It returns one of these.
//!
//! - [`Answer`]: the first finished list of proofs, one for each atom, with the objects for the variables. Lists are
//!   ordered by their shapes: at the first place where they differ, a fact comes before an ancestor and an ancestor
//!   before an axiom; facts come in the model's order, ancestors from the nearest, axioms by number and place. Among lists
//!   of one shape the least objects come first, so a variable that the proofs leave free gets object 0. A leaf has column
//!   0 and the fact's place in the model as its index. Only objects of the problem stand in the proofs, and their leaves are
//!   atoms of the problem, whatever else the model holds. `answers_make_rows` of `px_question` leads from them to a row of a
//!   support.
//! - `Unprovable`: no list is finished, and there are fewer unfinished ones than the shape limit.
//! - `ShapeLimit`: as many shapes of unfinished lists as the shape limit stand before the first finished one, or exist at
//!   all where no list is finished. The answer has the first of them, as many as the limit.
//! - `NoMemory`, of which nothing more is said.
//!
//! [`gap_lists`] is for at most [`MOST_GAP_VARIABLES`] variables. Here an atom may also be left as a gap, if some operator of the problem
//! adds its predicate; it need not be unprovable. A denied atom is never a gap, and one under an axiom may be. It returns
//! one of these.
//!
//! - The gap lists, ascending by their objects and then by their atoms, each once. A `GapList` of `px_question` has
//!   objects, one for each variable, and atoms, ascending, each once: those that the gaps of some finished list close
//!   under these objects. All that exist are there, so the objects of an answer of the formula stand there with no atoms.
//!   A variable that nothing binds is tried with each object: a formula without atoms has one gap list, with no atoms,
//!   for each choice of objects for its variables. So a caller with many variables that stand in no atom, or only in
//!   atoms that may be gaps, asks for very many lists, and so does one where an axiom has variables over predicates that
//!   operators add.
//! - `ShapeLimit`: as many shapes of unfinished lists as the shape limit exist, whether finished ones come before them or
//!   not. The answer has the first of them, as many as the limit, in the order above, in which a gap comes after the axioms.
//! - `NoMemory`, of which nothing more is said.
//!
//! [`gap_patterns`] has the conditions and the errors of `gap_lists`, and returns the same gap lists as patterns, which
//! keep variables. A [`GapPattern`] has an object or a variable for each variable of the formula, and atoms. Under each
//! choice of objects for the pattern's variables its terms and atoms are the objects and atoms of a gap list, and each gap
//! list comes about like this. No clause says how many patterns there are, or in which order. [`patterns_are_lists`] is a law for
//! callers: the instances of the patterns, ascending, each once, are the gap lists (`AreGapLists` of `px_question`).
//!
//! [`gap_closings`] has the same conditions and errors, and returns patterns without terms: the atoms that gaps close together,
//! whatever the objects for the formula's variables. Lists that close the same atoms are mostly one then; no clause says how few they are.
//!
//! [`count_shapes`] has the same conditions, and counts the shapes of unfinished and of finished lists, with gaps, where they are fewer
//! together than the shape limit and than 1,024. No clause says that so many exist, but that no more do.
//!
//! Facts with objects outside the problem are passed over. What these words mean is said in `px_question`: trees without
//! variables, one for each atom, and nothing of how they are found. Each answer is exact: it comes only where its meaning
//! holds, and the answers of a call exclude each other.
//!
//! Internally places are closed from left to right, over variables whose bindings are undone (`px_proof_state`), in the order
//! of the shapes (`px_proof_walk`). [`prove`] stops at the first finished list. `gap_patterns` visits the unfinished ones, and at
//! each gathers a pattern for each list that one more closing finishes; equal patterns are kept once. A walk over unfinished lists
//! passes over facts and ancestors where one place alone is open, since they leave none open. Facts and ancestors bind variables alone,
//! so where `gap_closings` finds that the first fact which finishes a list leaves the pattern as it was before, it passes over the other
//! facts and the ancestors that finish this list.
//! Where there are more than a few, a walk that gathers nothing tells first whether they are too many. `gap_lists` puts all objects in the
//! place of their variables.
//!
//! Of the files of `specs/`, public clauses cite `Counting`, `Limits`, `Outcomes`, `PatternLists` and `Patterns`; only private functions
//! cite the others.
#![tactic(auto)]

mod attempts;
mod building;
mod counting;
mod first;
mod gap_question;
mod gathering;
mod laws;
mod limiting;
mod limits;
mod listing;
mod outcome;
mod pattern;
mod patterns;
mod question;
mod tuples;
mod walking;

pub use counting::{ShapeCount, count_shapes};
pub use first::prove;
pub use laws::patterns_are_lists;
pub use limits::MOST_GAP_VARIABLES;
pub use listing::gap_lists;
pub use outcome::{Answer, GapErr, ProveErr};
pub use pattern::GapPattern;
pub use patterns::{gap_closings, gap_patterns};
pub use px_question::GapList;
