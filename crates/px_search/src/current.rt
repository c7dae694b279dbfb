//! The model that is looked at, which is kept from one node to the next.
ghost use Rattle.std.specs.Prelude.{◌≡◌, List, None, Some, IfOk, OnOk};
ghost use Rattle.px_terms.specs.AtomSets.{IsAtomSet};
ghost use Rattle.px_terms.specs.declared.atom.Atom.{Atom};
ghost use Rattle.px_numbers.specs.Numbers.{IsModelAt};
ghost use Rattle.px_support.specs.Asking.{IsAskable, task_for};
ghost use Rattle.px_search.specs.Cache.{AreRight, HaveGrown};
ghost use Rattle.px_search.specs.Offers.{IsPartAt};
ghost use Rattle.px_search.specs.CurrentModels.{IsCurrent, IsCurrentAt};

use crate::cache::Cache;
use px_entries::deciding_part;
use px_ops::Model;
use px_support::Asked;
use px_terms::NoMemory;
use std::alloc::Global;

/// The model that is looked at, with its number.
#[derive(Drop)]
pub struct CurrentModel {
    /// `None` where no model was looked at yet.
    pub number: Option<u32>,
    pub model: Model,
    /// The number of the part of it that decides what may be pushed.
    pub part: u32,
}

impl CurrentModel {
    /// Returns what stands for the current model while no model was looked at.
    pub fn new(alloc: Global) -> CurrentModel
        ensures { result.number ≡ None }
    {
        CurrentModel {
            number: None,
            model: Model::new(alloc),
            part: 0,
        }
    }
}

impl Cache {
    /// Returns the number of the part of the model that decides what may be pushed: its deciding facts, where no question about an entry
    /// ever meets the limit of shapes, and else the model itself.
    fn part_of(&mut self, asked: &Asked, model: &Model, number: u32) -> Result<u32, NoMemory>
        requires asked { IsAskable asked.now }
        requires cache { AreRight (task_for asked.now) self.old }
        requires model { IsAtomSet model.now.atoms }
        requires number { IsModelAt self.old.numbers number model.now.atoms }
        ensures cache { OnOk result (HaveGrown (task_for asked.now) self.old self.new) }
        ensures part { IfOk result (λ part. IsPartAt (task_for asked.now) self.new.numbers part model.now.atoms) }
    {
        if !self.is_never_limited {
            return Ok(number);
        }
        let deciding = deciding_part(asked.alloc, asked.problem, model)?;
        let part = self.numbers.model_number(asked.alloc, &deciding)?;
        Ok(part)
    }

    /// Returns the model with this number, which is looked at from now on.
    fn current_of(&mut self, asked: &Asked, number: u32) -> Result<CurrentModel, NoMemory>
        requires asked { IsAskable asked.now }
        requires cache { AreRight (task_for asked.now) self.old }
        requires model { (model : List Atom) × IsModelAt self.old.numbers number model }
        ensures cache { OnOk result (HaveGrown (task_for asked.now) self.old self.new) }
        ensures number { IfOk result (λ current. current.number ≡ Some number) }
        ensures current { IfOk result (IsCurrentAt (task_for asked.now) self.new.numbers number) }
    {
        let model = self.numbers.model(asked.alloc, number)?;
        let part = self.part_of(asked, &model, number)?;
        Ok(CurrentModel {
            number: Some(number),
            model,
            part,
        })
    }

    /// Looks at the model of this number. A model that is looked at already stays as it is.
    pub fn show(
        &mut self,
        asked: &Asked,
        current: &mut CurrentModel,
        number: u32,
    ) -> Result<(), NoMemory>
        requires asked { IsAskable asked.now }
        requires cache { AreRight (task_for asked.now) self.old }
        requires model { (model : List Atom) × IsModelAt self.old.numbers number model }
        requires current { IsCurrent (task_for asked.now) self.old.numbers current.old }
        ensures cache { OnOk result (HaveGrown (task_for asked.now) self.old self.new) }
        ensures number { OnOk result (current.new.number ≡ Some number) }
        ensures current { OnOk result (IsCurrentAt (task_for asked.now) self.new.numbers number current.new) }
    {
        if current.number == Some(number) {
            return Ok(());
        }
        *current = self.current_of(asked, number)?;
        Ok(())
    }
}
