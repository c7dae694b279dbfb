//! What operators change in models, by which the models that they leave are kept.
ghost use Rattle.std.specs.Prelude.{◌≡◌, length, All, IfOk, IfSome, OnOk};
ghost use Rattle.px_terms.specs.Language.{IsVariableBelow};
ghost use Rattle.px_terms.specs.Operators.{atoms_of};
ghost use Rattle.px_terms.specs.Validity.{IsGroundInstanceOf};
ghost use Rattle.px_support.specs.Asking.{IsAskable, task_for};
ghost use Rattle.px_search.specs.Cache.{AreRight, HaveGrown, IsAlterationAt, IsAlterationOf, IsEntryAt, IsResultAt};
ghost use Rattle.px_search.specs.CurrentModels.{IsCurrent};

use crate::cache::{Alteration, Cache, EntryPlace};
use crate::current::CurrentModel;
use crate::results::result_anew;
use px_numbers::Numbers;
use px_ops::schema_of;
use px_support::Asked;
use px_table::Entry;
use px_terms::{Atom, NoMemory, OpInst, Sequence, apply};
use std::alloc::Global;

/// Returns the atoms with the instance's arguments for the parameters.
fn atoms_with(alloc: Global, inst: &OpInst, atoms: &[Atom]) -> Result<Sequence<Atom>, NoMemory>
    requires { All (λ atom. All (IsVariableBelow (length inst.now.args)) atom.args) atoms.now }
    ensures { IfOk result (λ made. made ≡ atoms_of atoms.now inst.now) }
{
    let mut made = Vec::new(alloc);
    for atom in atoms {
        let here = apply(inst.args(), atom);
        made.push(here)?;
    }
    Ok(Sequence::from_vec(made))
}

/// Returns what the instance changes in the model of this number.
fn alteration_of(asked: &Asked, model: u32, inst: &OpInst) -> Result<Alteration, NoMemory>
    requires asked { IsAskable asked.now }
    requires inst { IsGroundInstanceOf asked.now.problem.now inst.now }
    ensures { IfOk result (IsAlterationOf asked.now.problem.now model inst.now) }
{
    let schema = schema_of(asked.problem, inst);
    let deleted = atoms_with(asked.alloc, inst, schema.del.as_slice())?;
    let added = atoms_with(asked.alloc, inst, schema.add.as_slice())?;
    Ok(Alteration {
        model,
        deleted,
        added,
    })
}

/// Returns what applying the entry changes in its model. `None` for a MACROP, which has more than one step.
fn alteration_at(
    asked: &Asked,
    numbers: &Numbers,
    place: EntryPlace,
) -> Result<Option<Alteration>, NoMemory>
    requires asked { IsAskable asked.now }
    requires place { IsEntryAt (task_for asked.now) numbers.now place }
    ensures { IfOk result (λ found. IfSome found (IsAlterationAt (task_for asked.now) numbers.now place)) }
{
    match numbers.entry(place.entry) {
        Entry::Op(inst) => {
            let alteration = alteration_of(asked, place.model, inst)?;
            Ok(Some(alteration))
        }
        Entry::Macro { .. } => Ok(None),
    }
}

impl Cache {
    /// Returns the number of the model that the entry leaves, which changes this, as it is kept, or found and then kept.
    fn result_altered(
        &mut self,
        asked: &Asked,
        current: &CurrentModel,
        place: EntryPlace,
        alteration: Alteration,
    ) -> Result<u32, NoMemory>
        requires asked { IsAskable asked.now }
        requires cache { AreRight (task_for asked.now) self.old }
        requires current { IsCurrent (task_for asked.now) self.old.numbers current.now }
        requires place { IsEntryAt (task_for asked.now) self.old.numbers place }
        requires alteration { IsAlterationAt (task_for asked.now) self.old.numbers place alteration }
        ensures cache { OnOk result (HaveGrown (task_for asked.now) self.old self.new) }
        ensures number { IfOk result (IsResultAt (task_for asked.now) self.new.numbers place) }
    {
        match self.altered.get(&alteration) {
            Some(number) => Ok(*number),
            None => {
                let number = result_anew(asked, &mut self.numbers, current, place)?;
                self.altered.insert(alteration, number)?;
                Ok(number)
            }
        }
    }

    /// Returns the number of the model that applying the entry leaves. What operators change alike in a model leaves it once.
    pub fn result_found(
        &mut self,
        asked: &Asked,
        current: &CurrentModel,
        place: EntryPlace,
    ) -> Result<u32, NoMemory>
        requires asked { IsAskable asked.now }
        requires cache { AreRight (task_for asked.now) self.old }
        requires current { IsCurrent (task_for asked.now) self.old.numbers current.now }
        requires place { IsEntryAt (task_for asked.now) self.old.numbers place }
        ensures cache { OnOk result (HaveGrown (task_for asked.now) self.old self.new) }
        ensures number { IfOk result (IsResultAt (task_for asked.now) self.new.numbers place) }
    {
        let found = alteration_at(asked, &self.numbers, place)?;
        match found {
            Some(alteration) => self.result_altered(asked, current, place, alteration),
            None => {
                let number = result_anew(asked, &mut self.numbers, current, place)?;
                Ok(number)
            }
        }
    }
}
