//! The names of objects, predicates, operators and results.
ghost use Rattle.std.specs.Prelude.{◌≡◌, ◌↔◌, ◌<◌, ◌≤◌, [], ◌∷◌, length, position, slice_get, None, Some, Ok, false, is_some, Contains, IfOk, OnOk, OnErr, MatchOption, MatchResult};
ghost use Rattle.std.specs.Str.{bytes_eq};
ghost use Rattle.px_names.specs.Name.{IsName};
ghost use Rattle.px_names.specs.Lists.{IsOneTooMany, IsWelcome, names_of, has_name, with_name, no_names, limit_of, AreNames, AreNameLists, NameLists};

use crate::list::NameList;
use crate::{Kind, NameErr, is_name};
use px_base::NoMemory;
use std::alloc::{AllocError, Global};
use std::marker::Model;

/// The names of each kind, numbered from 0 in the order in which they were declared.
///
/// In one kind no two names are equal, so number and name correspond.
#[derive(Drop)]
pub struct Names {
    objects: NameList,
    predicates: NameList,
    operators: NameList,
    results: NameList,
}

impl Model for Names {
    ghost Value = { NameLists };

    ghost view = { λ n. record { objects = n.objects; predicates = n.predicates; operators = n.operators; results = n.results } };

    ghost invariant = { λ n. AreNameLists (record {
      objects = n.objects;
      predicates = n.predicates;
      operators = n.operators;
      results =
          n.results;
    }) };
}

impl Names {
    /// Returns no names of any kind.
    ///
    /// # Errors
    /// `NoMemory` is kept for a list that takes its room beforehand; this one takes none, so it never comes.
    pub fn new(alloc: Global) -> Result<Names, NoMemory>
        ensures empty { result ≡ Ok no_names }
    {
        Ok(Names {
            objects: NameList::new(alloc),
            predicates: NameList::new(alloc),
            operators: NameList::new(alloc),
            results: NameList::new(alloc),
        })
    }

    /// Adds a name as the last one of its kind, and returns its number: how many names the kind had.
    ///
    /// # Errors
    /// The first of these is returned, and the names stay as they were.
    /// - `BadName` exactly where the text isn't a name.
    /// - `Duplicate` exactly where the kind has the name.
    /// - `Full` exactly where the kind has as many names as it may have: 1,024 objects, 64 predicates, 32 operators or
    ///   1,056 results.
    /// - `NoMemory` where there is no memory for the name, and none of these causes.
    pub fn declare(&mut self, kind: Kind, name: &str) -> Result<u32, NameErr>
        ensures number { IfOk result (λ number. number ≡ length (names_of kind self.old)) }
        ensures declared { OnOk result (self.new ≡ with_name kind name.now self.old) }
        ensures kept { OnErr result (self.new ≡ self.old) }
        ensures bad_name { (result ≡ Err NameErr.BadName) ↔ (¬ IsName name.now) }
        ensures duplicate { (result ≡ Err NameErr.Duplicate) ↔ (IsName name.now × Contains (names_of kind self.old) name.now) }
        ensures full { (result ≡ Err NameErr.Full) ↔ IsOneTooMany kind (names_of kind self.old) name.now }
        ensures no_memory { result ≡ Err NameErr.NoMemory → IsWelcome kind (names_of kind self.old) name.now }
    {
        if !is_name(name) {
            return Err(NameErr::BadName);
        }
        if self.list(kind).has(name) {
            return Err(NameErr::Duplicate);
        }
        let number = self.count(kind);
        if number >= kind.limit() {
            return Err(NameErr::Full);
        }
        self.push(kind, name)?;
        Ok(number)
    }

    /// Returns the number of a name, or `None` exactly where no name of that kind is the given one.
    ///
    /// `number` is the contract. `position` and `found` say the same by tests that compute, for callers whose own
    /// definitions compute numbers.
    pub fn find(&self, kind: Kind, name: &str) -> Option<u32>
        ensures number { MatchOption result (¬ Contains (names_of kind self.now) name.now)
            (λ number. slice_get (names_of kind self.now) number ≡ Some name.now) }
        ensures position { result ≡ position (bytes_eq name.now) (names_of kind self.now) }
        ensures found { is_some result ≡ has_name name.now (names_of kind self.now) }
        ensures names { AreNames kind (names_of kind self.now) }
    {
        let number = self.list(kind).find(name)?;
        Some(number as u32)
    }

    /// Returns the name of a number.
    pub fn text(&self, kind: Kind, number: u32) -> &str
        requires { number < length (names_of kind self.now) }
        ensures text { slice_get (names_of kind self.now) number ≡ Some result.now }
        ensures number { position (bytes_eq result.now) (names_of kind self.now) ≡ Some number }
        ensures names { AreNames kind (names_of kind self.now) }
    {
        self.list(kind).text(number as usize)
    }

    /// Returns how many names the kind has.
    pub fn count(&self, kind: Kind) -> u32
        ensures count { result ≡ length (names_of kind self.now) }
        ensures names { AreNames kind (names_of kind self.now) }
    {
        self.list(kind).len() as u32
    }

    fn list(&self, kind: Kind) -> &NameList
        ensures list { result.now ≡ names_of kind self.now }
        ensures names { AreNames kind (names_of kind self.now) }
        ensures small { length (names_of kind self.now) ≤ limit_of Kind.Result }
    {
        match kind {
            Kind::Object => &self.objects,
            Kind::Predicate => &self.predicates,
            Kind::Operator => &self.operators,
            Kind::Result => &self.results,
        }
    }

    fn push(&mut self, kind: Kind, name: &str) -> Result<(), AllocError>
        requires named { IsName name.now }
        requires new { has_name name.now (names_of kind self.old) ≡ false }
        requires room { length (names_of kind self.old) < limit_of kind }
        ensures declared { OnOk result (self.new ≡ with_name kind name.now self.old) }
        ensures kept { OnErr result (self.new ≡ self.old) }
    {
        match kind {
            Kind::Object => self.objects.push(name),
            Kind::Predicate => self.predicates.push(name),
            Kind::Operator => self.operators.push(name),
            Kind::Result => self.results.push(name),
        }
    }
}
