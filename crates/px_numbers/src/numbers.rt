//! All that a search keeps by number.
ghost use Rattle.std.specs.Prelude.{◌≡◌, ◌<◌, ◌↔◌, ◌∷◌, List, [], Some, length, slice_get, All, Contains, IsTrue, IfOk, OnErr, IfSome};
ghost use Rattle.px_terms.specs.Instances.{IsGround};
ghost use Rattle.px_table.specs.declared.entry.Entry.{Entry};
ghost use Rattle.px_ops.specs.Keeping.{AreOnce, Keeps, KeepsPlaces};
ghost use Rattle.px_numbers.specs.Numbers.{AreNumbersOf, AreSound, IsModelAt, IsModelOf, IsStackAt, IsTopOf, KeepsAll};

use crate::entries::EntryIndex;
use crate::lists::NumberLists;
use crate::stacks::{Frame, StackIndex};
use px_base::{NoMemory, Sequence};
use px_ops::{AtomIndex, Model};
use px_table::Entry;
use px_terms::Atom;
use std::alloc::Global;

/// The atoms, models, entries and stacks of a search.
#[derive(Drop)]
pub struct Numbers {
    atoms: AtomIndex,
    lists: NumberLists,
    entries: EntryIndex,
    stacks: StackIndex,
}

impl std::marker::Model for Numbers {
    ghost use Rattle.px_numbers.specs.Numbers.{Kept, AreSound};

    ghost Value = { Kept };

    ghost view = { λ n. record { atoms = n.atoms; lists = n.lists; entries = n.entries; frames = n.stacks } };

    ghost invariant = { λ n. AreSound (record { atoms = n.atoms; lists = n.lists; entries = n.entries; frames = n.stacks }) };
}

/// Returns the number of the atom, if it is this one.
fn number_if(index: &AtomIndex, number: u32, atom: &Atom) -> Option<u32>
    ensures { IfSome result (λ number. slice_get index.now number ≡ Some atom.now) }
{
    if number < index.count() && index.atom(number) == *atom {
        return Some(number);
    }
    None
}

/// Returns the number of the atom. Most atoms of a model have the number after that of the atom before them, so that one is tried first.
fn number_of(index: &mut AtomIndex, next: u32, atom: &Atom) -> Result<u32, NoMemory>
    requires { IsGround atom.now }
    ensures kept { IfOk result (Keeps index.old index.new atom.now) }
    ensures err { OnErr result (index.new ≡ index.old) }
{
    match number_if(index, next, atom) {
        Some(number) => Ok(number),
        None => index.intern(atom),
    }
}

/// Returns the numbers of the atoms, in their order.
fn numbers_of(alloc: Global, index: &mut AtomIndex, atoms: &[Atom]) -> Result<Vec<u32>, NoMemory>
    requires { All IsGround atoms.now }
    ensures places { KeepsPlaces index.old index.new }
    ensures once { AreOnce index.old → AreOnce index.new }
    ensures numbers { IfOk result (λ numbers. AreNumbersOf index.new numbers.items atoms.now) }
{
    let mut numbers = Vec::new(alloc);
    let mut next = 0;
    for atom in atoms {
        let number = number_of(index, next, atom)?;
        numbers.push(number)?;
        next = number.saturating_add(1);
    }
    Ok(numbers)
}

/// Returns the model of the atoms with these numbers. Each atom comes after all before it, so it is put at the end.
fn model_of(alloc: Global, index: &AtomIndex, numbers: &[u32]) -> Result<Model, NoMemory>
    requires { (model : List Atom) × IsModelOf index.now numbers.now model }
    ensures { IfOk result (λ built. IsModelOf index.now numbers.now built.atoms) }
{
    let mut model = Model::new(alloc);
    for number in numbers {
        let atom = index.atom(*number);
        model.insert(atom)?;
    }
    Ok(model)
}

impl Numbers {
    /// Returns a store in which nothing is kept.
    pub fn new(alloc: Global) -> Numbers
        ensures { result ≡ record { atoms = []; lists = []; entries = []; frames = [] } }
    {
        Numbers {
            atoms: AtomIndex::new(alloc),
            lists: NumberLists::new(alloc),
            entries: EntryIndex::new(alloc),
            stacks: StackIndex::new(alloc),
        }
    }

    /// Says what is true of all that is kept. (It does nothing: its contract is a law.)
    pub fn sound(&self)
        ensures { AreSound self.now }
    {
        // what stands behind `self` is known once a field of it is read
        let _opened = &self.atoms;
    }

    /// Returns the number of the model.
    ///
    /// # Errors
    /// `NoMemory` where there is no memory for it.
    pub fn model_number(&mut self, alloc: Global, model: &Model) -> Result<u32, NoMemory>
        ensures keeps { KeepsAll self.old self.new }
        ensures model { IfOk result (λ number. IsModelAt self.new number model.now.atoms) }
    {
        let numbers = numbers_of(alloc, &mut self.atoms, model.atoms())?;
        self.lists.intern(Sequence::from_vec(numbers))
    }

    /// Returns the model of the number.
    ///
    /// # Errors
    /// `NoMemory` where there is no memory for it.
    pub fn model(&self, alloc: Global, number: u32) -> Result<Model, NoMemory>
        requires { (model : List Atom) × IsModelAt self.now number model }
        ensures { IfOk result (λ built. IsModelAt self.now number built.atoms) }
    {
        model_of(alloc, &self.atoms, self.lists.list(number))
    }

    /// Returns the number of the entry.
    ///
    /// # Errors
    /// `NoMemory` where there is no memory for it.
    pub fn entry_number(&mut self, entry: Entry) -> Result<u32, NoMemory>
        ensures keeps { KeepsAll self.old self.new }
        ensures entry { IfOk result (λ number. slice_get self.new.entries number ≡ Some entry) }
    {
        self.entries.intern(entry)
    }

    /// Returns the entry of the number. Does not allocate.
    pub fn entry(&self, number: u32) -> &Entry
        requires { number < length self.now.entries }
        ensures { slice_get self.now.entries number ≡ Some result.now }
    {
        self.entries.entry(number)
    }

    /// Returns the number of the stack with the entry on top of another one.
    ///
    /// # Errors
    /// `NoMemory` where there is no memory for it.
    pub fn pushed(&mut self, entry: u32, below: u32) -> Result<u32, NoMemory>
        requires { (stack : List Entry) × IsStackAt self.old below stack }
        ensures keeps { KeepsAll self.old self.new }
        ensures stack { IfOk result (λ number. (top : Entry) (stack : List Entry) → slice_get self.old.entries entry ≡ Some top
            → IsStackAt self.old below stack → IsStackAt self.new number (top ∷ stack)) }
    {
        let place = self.stacks.intern(Frame { entry, below })?;
        Ok(place + 1)
    }

    /// Returns the top entry of the stack, and the stack below. `None` where it is empty. Does not allocate.
    pub fn top(&self, stack: u32) -> Option<Frame>
        requires { (entries : List Entry) × IsStackAt self.now stack entries }
        ensures top { (entries : List Entry) → IsStackAt self.now stack entries → IsTopOf self.now entries result }
        ensures below { IfSome result (λ frame. frame.below < stack) }
    {
        if stack == 0 {
            None
        } else {
            Some(self.stacks.frame(stack - 1))
        }
    }

    /// Returns whether the entry is on the stack. Does not allocate.
    pub fn is_stacked(&self, stack: u32, entry: u32) -> bool
        requires { (entries : List Entry) × IsStackAt self.now stack entries }
        ensures { (entries : List Entry) (one : Entry) → IsStackAt self.now stack entries → slice_get self.now.entries entry ≡ Some one
            → IsTrue result ↔ Contains entries one }
    {
        let mut rest = stack;
        while rest > 0 {
            let frame = self.stacks.frame(rest - 1);
            if frame.entry == entry {
                return true;
            }
            rest = frame.below;
        }
        false
    }
}
