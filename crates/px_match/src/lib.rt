//! The highest kernel of a triangle table with a proper instance that is true: what a sensing finds (Fikes, Hart and Nilsson
//! 1972).
//!
//! # Calling it
//!
//! - [`Matcher::reserve`] makes a matcher for a table of a problem, under a binding, for models of at most `room` atoms. It
//!   takes all the memory that the matcher will need: for a mark without parameters a list with room for one atom, for each other mark one
//!   with room for `room` atoms. It asks for a table of a valid problem (`check_table` of `px_table`) and for a
//!   binding that binds no parameter twice and has objects of the problem. `BadParam` comes exactly where the table does not have
//!   some bound parameter, with the first such one.
//! - A binding is a list of pairs, each a parameter, counted from 1, and its object. `first_bad` in `specs/Matching` is the
//!   first parameter of it that the table does not have.
//! - [`Matcher::best`] returns the number of the highest kernel that fits a model, and `None` exactly where none does.
//!   [`Matcher::instance`] then gives the first objects with which that kernel fits; where `best` found no kernel they stay, and at
//!   first there are no objects. Neither takes memory.
//! - Contracts see a matcher as `MatcherValue`: its problem, table, binding, room and objects. All but the objects stay.
//! - `KernelFits` says that objects for the parameters extend the binding and fit the parameters' sorts, that the instance of kernel `i`
//!   under them is proper, and that all its atoms are true. `IsHighest` is the greatest `i` for which some objects fit, with the first
//!   such objects, compared parameter by parameter; `NoKernelFits` says that no objects fit. A parameter that stands in no
//!   mark of the kernel has the least object that fits it and with which the instance is proper.
//! - `IsSensed` is what sensing finds in a set of atoms. It is determined ([`sensed_is_one`]).
//! - A worked example, in `specs/WorkedDanger`, is a plan that would delete what it needs if one object stood for two: when each
//!   of its kernels fits ([`danger_kernels`]), and what is sensed under some bindings ([`danger_sensed`]).
//!
//! # How it works
//!
//! A matcher keeps the atoms of the last sensing, and for each mark the list of those that it may become. The next sensing takes
//! away what is gone and adds what has come. That the lists are exactly these is the invariant of the type.
//!
//! Kernels with a mark whose list is empty are passed over in one walk over the marks. Whether an instance is proper doesn't depend on the
//! model, and where one is, those of later kernels are: so the number from which on they are known to be proper for the objects that were
//! found last is kept, and it is tested anew only below it or for other objects.
//!
//! A kernel is matched parameter by parameter, each from the first object up. Objects that the binding forbids there, or that don't fit the
//! parameter's sort, are passed over, and three kinds more: those that no atom of a mark's list has there, given the objects before; those
//! with which a step deletes a mark whatever comes later; and those with which no object is left for a later parameter. For these there are
//! reasons, the earlier parameters on whose objects it rests. Where no
//! object is left, the search goes back to the last reason, over all parameters between. What was found for these is kept as long as the
//! objects on which it rests stand, so that marks without a common parameter aren't searched anew for each other. What is found first is
//! the first in the order of objects. In a list the atom is found by binary search, since it ascends, where the mark's terms are known
//! from the left up to the parameter. Which marks, deletions and later parameters are looked at, and when, is a hint: each passing over is
//! proved by itself, and a full list of objects is tested.
//!
//! What contracts of public calls cite stands in `specs/Matching`, `specs/MatcherValue` and `specs/WorkedDanger`. Only private functions
//! cite the other files of `specs/`: the reasons (`Reasons`), what the search looks for (`Asking`, `Filling`), on which side of an atom
//! what a mark becomes stands (`Seeking`), its turns with the measure by which they end (`Turns`), and the lists (`Keeping`).
#![tactic(auto)]

mod checking;
mod filling;
mod highest;
mod hints;
mod keeping;
mod known;
mod laws;
mod lead;
mod marks;
mod match_err;
mod matcher;
mod meeting;
mod question;
mod raising;
mod reasons;
mod seeking;
mod turns;

pub use laws::{danger_kernels, danger_sensed, sensed_is_one};
pub use match_err::MatchErr;
pub use matcher::Matcher;
