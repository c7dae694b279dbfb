//! Clauses, and the arena that keeps them by number.
ghost use Rattle.std.specs.Prelude.{◌≡◌, ◌<◌, ◌≤◌, ◌↔◌, ◌++◌, [], ◌∷◌, length, slice_index_or, All, IfOk, OnErr};
ghost use Rattle.px_terms.specs.Clauses.{ArePlainBelow, HasClauseLength, IsArena};
ghost use Rattle.px_terms.specs.Limits.{most_clauses};

use crate::atom::Atom;
use crate::limits::{MOST_CLAUSES, MOST_LITERALS};
use px_base::{NoMemory, Sequence};
use std::alloc::Global;
use std::marker::Model;
use thiserror::Error;

/// A literal: an atom, or its denial.
#[derive(Clone, Copy, PartialEq, Eq, PartialOrd, Ord, Hash, Debug)]
pub struct Lit {
    /// Whether the atom is asserted.
    pub positive: bool,
    /// The atom that is asserted or denied.
    pub atom: Atom,
}

/// Why a clause isn't taken.
#[derive(Clone, Copy, PartialEq, Eq, Debug, Error)]
pub enum ArenaErr {
    /// There is no literal, or more than six.
    #[error("a clause has one to six literals")]
    BadLength,
    /// The arena has its 64 clauses.
    #[error("there are 64 clauses")]
    Full,
    /// There is no memory for the clause.
    #[error("out of memory")]
    NoMemory,
}

/// An axiom: one of its literals is true in every state, whatever its variables, `variable_count` in number, stand for.
#[derive(Drop)]
pub struct Clause {
    /// How many variables it has, numbered from 0.
    pub variable_count: u32,
    /// Its literals, from one to six in an arena.
    pub lits: Sequence<Lit>,
}

/// The axioms of a problem by their numbers: at most 64 clauses of one to six literals, without wild cards and with
/// variables in range. Contracts see it as the list of its clauses.
#[derive(Drop)]
pub struct ClauseArena {
    clauses: Vec<Clause>,
}

impl Model for ClauseArena {
    ghost use Rattle.std.specs.Prelude.{List};
    ghost use Rattle.px_terms.specs.declared.clause.Clause.{Clause};
    ghost use Rattle.px_terms.specs.Clauses.{IsArena};

    ghost Value = { List Clause };

    ghost view = { λ a. a.clauses.items };

    ghost invariant = { λ a. IsArena a.clauses.items };
}

impl ClauseArena {
    /// Returns an arena without clauses. Does not allocate.
    pub fn new(alloc: Global) -> ClauseArena
        ensures { result ≡ [] }
    {
        ClauseArena {
            clauses: Vec::new(alloc),
        }
    }

    /// Adds a clause as the last one, and returns its number.
    ///
    /// # Errors
    /// `BadLength` exactly where there is no literal or more than six; else `Full` exactly where 64 clauses are there;
    /// else `NoMemory`, where there is no memory. A refused clause leaves the arena as it was.
    pub fn push(&mut self, variable_count: u32, lits: &[Lit]) -> Result<u32, ArenaErr>
        requires { ArePlainBelow variable_count lits.now }
        ensures number { IfOk result (λ number. number ≡ length self.old) }
        ensures added { IfOk result (λ _. self.new ≡ self.old ++ record { variable_count = variable_count; lits = lits.now } ∷ []) }
        ensures length { (result ≡ Err ArenaErr.BadLength) ↔ (¬ HasClauseLength lits.now) }
        ensures full { (result ≡ Err ArenaErr.Full) ↔ (HasClauseLength lits.now × (length self.old ≡ most_clauses)) }
        ensures err { OnErr result (self.new ≡ self.old) }
    {
        if lits.is_empty() || lits.len() > MOST_LITERALS {
            return Err(ArenaErr::BadLength);
        }
        let number = self.count();
        if number as usize == MOST_CLAUSES {
            return Err(ArenaErr::Full);
        }
        let lits = match Sequence::from_slice(*self.clauses.allocator(), lits) {
            Ok(lits) => lits,
            Err(NoMemory) => return Err(ArenaErr::NoMemory),
        };
        match self.clauses.push(Clause {
            variable_count,
            lits,
        }) {
            Ok(()) => Ok(number),
            Err(_) => Err(ArenaErr::NoMemory),
        }
    }

    /// Returns the number of clauses.
    pub fn count(&self) -> u32
        ensures count { result ≡ length self.now }
        ensures most { length self.now ≤ most_clauses }
    {
        self.clauses.len() as u32
    }

    /// Returns the clauses, by number.
    pub(crate) fn clauses(&self) -> &[Clause]
        ensures value { result.now ≡ self.now }
        ensures arena { IsArena self.now }
    {
        &self.clauses
    }

    /// Returns the number of the clause's variables.
    pub fn variable_count(&self, clause: u32) -> u32
        requires { clause < length self.now }
        ensures value { (d : Clause) → result ≡ (slice_index_or self.now clause d).variable_count }
        ensures arena { IsArena self.now }
    {
        self.clauses[clause as usize].variable_count
    }

    /// Returns the literals of the clause.
    pub fn lits(&self, clause: u32) -> &[Lit]
        requires { clause < length self.now }
        ensures value { (d : Clause) → result.now ≡ (slice_index_or self.now clause d).lits }
        ensures arena { IsArena self.now }
    {
        self.clauses[clause as usize].lits.as_slice()
    }
}
