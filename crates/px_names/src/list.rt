//! A list of names that are found by their hashes.
ghost use Rattle.std.specs.Prelude.{◌≡◌, ◌<◌, [], ◌∷◌, ◌++◌, length, position, slice_get, Some, false, IfSome, MatchBool, MatchOption, Contains, is_some, OnOk, OnErr};
ghost use Rattle.std.specs.Str.{bytes_eq};
ghost use Rattle.px_names.specs.Lists.{has_name};

use indexmap::IndexSet;
use std::alloc::{AllocError, Global};
use std::marker::Model;

#[derive(Drop)]
pub struct NameList {
    alloc: Global,
    set: IndexSet<String>,
}

impl Model for NameList {
    ghost use Rattle.std.specs.Prelude.{ℕ, List, map};
    ghost use Rattle.std.specs.String.{string_bytes};

    ghost Value = { List (List ℕ) };

    ghost view = { λ s. map string_bytes s.set.keys };
}

impl NameList {
    pub fn new(alloc: Global) -> Self
        ensures { result ≡ [] }
    {
        NameList {
            alloc,
            set: IndexSet::new(alloc),
        }
    }

    pub fn len(&self) -> usize
        ensures { result ≡ length self.now }
    {
        self.set.len()
    }

    pub fn has(&self, name: &str) -> bool
        ensures test { result ≡ has_name name.now self.now }
        ensures member { MatchBool result (Contains self.now name.now) (¬ Contains self.now name.now) }
    {
        self.set.contains(name)
    }

    pub fn find(&self, name: &str) -> Option<usize>
        ensures number { result ≡ position (bytes_eq name.now) self.now }
        ensures named { MatchOption result (¬ Contains self.now name.now) (λ number. slice_get self.now number ≡ Some name.now) }
        ensures found { is_some result ≡ has_name name.now self.now }
        ensures within { IfSome result (λ number. number < length self.now) }
    {
        self.set.get_index_of(name)
    }

    pub fn text(&self, number: usize) -> &str
        requires { number < length self.now }
        ensures { slice_get self.now number ≡ Some result.now }
    {
        match self.set.get_index(number) {
            Some(name) => name.as_str(),
            None => unreachable!(),
        }
    }

    pub fn push(&mut self, name: &str) -> Result<(), AllocError>
        requires { has_name name.now self.old ≡ false }
        ensures added { OnOk result (self.new ≡ self.old ++ name.now ∷ []) }
        ensures kept { OnErr result (self.new ≡ self.old) }
    {
        self.set.insert(String::from_str(self.alloc, name)?)?;
        Ok(())
    }
}
