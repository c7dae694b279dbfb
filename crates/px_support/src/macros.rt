//! Applying a MACROP: the first steps of a learned table, with the table's rows put onto the first proofs of their initial facts.
ghost use Rattle.std.specs.Prelude.{◌≡◌, ◌+◌, ◌<◌, ◌≤◌, length, slice_get, All, IfOk, Some};
ghost use Rattle.px_base.specs.Bounds.{u32_max};
ghost use Rattle.px_terms.specs.Validity.{IsGroundInstanceOf};
ghost use Rattle.px_entries.specs.Entries.{IsEntry, initial_atoms, obligations_of};
ghost use Rattle.px_table.specs.declared.entry.Entry.{Entry};
ghost use Rattle.px_support.specs.Asking.{IsAskable, IsFindable};
ghost use Rattle.px_support.specs.Going.{HasRoom, IsEntryApplied};
ghost use Rattle.px_support.specs.MacroSteps.{IsLearnedOf, IsMacroApplied, IsStepTaken, NeedsOfMacro};

use crate::applying::apply_to;
use crate::asked::Asked;
use crate::grafts::{Graft, learned_row, object_terms};
use crate::walk::Walk;
use px_base::{NoMemory, push};
use px_entries::{initial_of, left_of, step_under};
use px_ops::Model;
use px_proof::Proof;
use px_table::Table;
use px_terms::Term;

/// The first steps of a learned table, with objects for its parameters.
#[derive(Clone, Copy)]
pub struct Learned<'a> {
    pub table: &'a Table,
    /// How many steps are taken.
    pub prefix: u32,
    pub sigma: &'a [u32],
    /// The objects as terms.
    pub terms: &'a [Term],
    /// How many steps were made before.
    pub shift: u32,
}

/// What is reached within a MACROP.
#[derive(Drop)]
pub struct Within {
    pub walk: Walk,
    /// What the steps so far leave of the model at the start, without what they add.
    pub facts: Model,
}

/// Returns the proofs of the table's row at the place.
fn proofs_at(table: &Table, place: u32) -> &[Proof]
    requires { place < length table.now.proofs }
    ensures { slice_get table.now.proofs place ≡ Some result.now }
{
    let rows = table.proofs.as_slice();
    rows[place as usize].proofs()
}

/// Takes the step at the place, with its row.
fn take_step(
    asked: &Asked,
    learned: &Learned,
    mut within: Within,
    place: u32,
) -> Result<Within, NoMemory>
    requires asked { IsAskable asked.now }
    requires learned { IsLearnedOf asked.now.problem.now learned.now }
    requires place { place < learned.now.prefix }
    requires findable { IsFindable asked.now.problem.now (record
        { formula = initial_atoms learned.now.table.now learned.now.sigma.now (place + 1); variable_count = 0; facts = within.facts.atoms }) }
    requires steps { All (IsGroundInstanceOf asked.now.problem.now) within.walk.steps.items }
    requires short { length within.walk.steps.items ≤ u32_max }
    ensures { IfOk result (IsStepTaken asked.now.problem.now learned.now place within) }
{
    let step = step_under(learned.table, learned.sigma, place);
    let formula = initial_of(asked.alloc, learned.table, learned.sigma, place + 1)?;
    let graft = Graft {
        alloc: asked.alloc,
        problem: asked.problem,
        steps: &within.walk.steps,
        formula: &formula,
        terms: learned.terms,
        shift: learned.shift,
    };
    let row = learned_row(&graft, &within.facts, proofs_at(learned.table, place))?;
    let facts = left_of(asked.alloc, asked.problem, &within.facts, &step)?;
    apply_to(asked.problem, &mut within.walk.model, &step)?;
    within.facts = facts;
    push(&mut within.walk.steps, step)?;
    push(&mut within.walk.rows, row)?;
    Ok(within)
}

/// Takes the steps in order.
fn take_steps(asked: &Asked, learned: &Learned, walk: Walk) -> Result<Walk, NoMemory>
    requires asked { IsAskable asked.now }
    requires learned { IsLearnedOf asked.now.problem.now learned.now }
    requires shift { learned.now.shift ≡ length walk.steps.items }
    requires findable { NeedsOfMacro asked.now.problem.now learned.now walk.model.atoms (All (IsFindable asked.now.problem.now)) }
    requires steps { All (IsGroundInstanceOf asked.now.problem.now) walk.steps.items }
    ensures { IfOk result (IsMacroApplied asked.now.problem.now learned.now walk) }
{
    let facts = walk.model.try_copy()?;
    let mut within = Within { walk, facts };
    for place in 0..learned.prefix {
        within = take_step(asked, learned, within, place)?;
    }
    Ok(within.walk)
}

/// Applies the first steps of the table of that number, with these objects for its parameters.
pub fn apply_macro(
    asked: &Asked,
    walk: Walk,
    number: u32,
    prefix: u32,
    sigma: &[u32],
) -> Result<Walk, NoMemory>
    requires asked { IsAskable asked.now }
    requires entry { IsEntry asked.now.problem.now asked.now.tables.now (Entry.Macro number prefix sigma.now) }
    requires findable { All (IsFindable asked.now.problem.now)
        (obligations_of asked.now.problem.now asked.now.tables.now walk.model.atoms (Entry.Macro number prefix sigma.now)) }
    requires room { HasRoom asked.now.problem.now walk }
    ensures { IfOk result (IsEntryApplied asked.now.problem.now asked.now.tables.now (Entry.Macro number prefix sigma.now) walk) }
{
    let table = &asked.tables[number as usize];
    let terms = object_terms(asked.alloc, sigma)?;
    let learned = Learned {
        table,
        prefix,
        sigma,
        terms: &terms,
        shift: walk.steps.len() as u32,
    };
    take_steps(asked, &learned, walk)
}
