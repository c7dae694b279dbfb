//! The models that applying entries leaves.
ghost use Rattle.std.specs.Prelude.{List, IfOk, OnOk};
ghost use Rattle.px_terms.specs.declared.atom.Atom.{Atom};
ghost use Rattle.px_numbers.specs.Numbers.{IsModelAt, KeepsAll};
ghost use Rattle.px_support.specs.Asking.{IsAskable, task_for};
ghost use Rattle.px_search.specs.Cache.{AreRight, HaveGrown, IsEntryAt, IsResultAt};
ghost use Rattle.px_search.specs.CurrentModels.{IsCurrent};

use crate::cache::{Cache, EntryPlace};
use crate::current::CurrentModel;
use crate::effects::apply_entry;
use px_numbers::Numbers;
use px_ops::Model;
use px_support::Asked;
use px_terms::NoMemory;

/// Returns the model of this number: a copy of the current one, if it has the number, or else the one that is kept by it.
fn model_for(
    asked: &Asked,
    numbers: &Numbers,
    current: &CurrentModel,
    number: u32,
) -> Result<Model, NoMemory>
    requires current { IsCurrent (task_for asked.now) numbers.now current.now }
    requires model { (model : List Atom) × IsModelAt numbers.now number model }
    ensures { IfOk result (λ built. IsModelAt numbers.now number built.atoms) }
{
    if current.number == Some(number) {
        return current.model.try_copy();
    }
    numbers.model(asked.alloc, number)
}

/// Returns the number of the model that applying the entry leaves, by applying it.
pub fn result_anew(
    asked: &Asked,
    numbers: &mut Numbers,
    current: &CurrentModel,
    place: EntryPlace,
) -> Result<u32, NoMemory>
    requires asked { IsAskable asked.now }
    requires current { IsCurrent (task_for asked.now) numbers.old current.now }
    requires place { IsEntryAt (task_for asked.now) numbers.old place }
    ensures keeps { KeepsAll numbers.old numbers.new }
    ensures number { IfOk result (IsResultAt (task_for asked.now) numbers.new place) }
{
    let mut model = model_for(asked, numbers, current, place.model)?;
    apply_entry(asked, &mut model, numbers.entry(place.entry))?;
    let number = numbers.model_number(asked.alloc, &model)?;
    Ok(number)
}

impl Cache {
    /// Returns the number of the model that applying the entry leaves. An entry is applied in a model once.
    pub fn result_at(
        &mut self,
        asked: &Asked,
        current: &CurrentModel,
        place: EntryPlace,
    ) -> Result<u32, NoMemory>
        requires asked { IsAskable asked.now }
        requires cache { AreRight (task_for asked.now) self.old }
        requires current { IsCurrent (task_for asked.now) self.old.numbers current.now }
        requires place { IsEntryAt (task_for asked.now) self.old.numbers place }
        ensures cache { OnOk result (HaveGrown (task_for asked.now) self.old self.new) }
        ensures number { IfOk result (IsResultAt (task_for asked.now) self.new.numbers place) }
    {
        match self.results.get(&place) {
            Some(number) => Ok(*number),
            None => {
                let number = self.result_found(asked, current, place)?;
                self.results.insert(place, number)?;
                Ok(number)
            }
        }
    }
}
