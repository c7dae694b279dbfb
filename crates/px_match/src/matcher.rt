//! The matcher of a table.
ghost use Rattle.std.specs.Prelude.{◌≡◌, ◌⊎◌, ◌↔◌, ◌≤◌, ◌<◌, ◌+◌, ◌≢◌, ℕ, List, [], All, AllPairs, Option, None, length, IfOk, IfSome, IsErrOf, OnOk, Some};
ghost use Rattle.px_terms.specs.Validity.{IsValid};
ghost use Rattle.px_table.specs.Tables.{IsTable};
ghost use Rattle.px_match.specs.Keeping.{AreEmpty, HasPlaces};
ghost use Rattle.px_match.specs.MatcherValue.{kernel_with};
ghost use Rattle.px_match.specs.Matching.{IsHighest, NoKernelFits, KernelInstance, first_bad as spec_first_bad};

use crate::highest::highest;
use crate::hints::{Hints, hints_of};
use crate::keeping::renew;
use crate::known::{goal_number, keep_found};
use crate::match_err::MatchErr;
use px_base::{NoMemory, Sequence};
use px_ops::Model;
use px_table::{Mark, Table};
use px_terms::{Atom, Problem, is_ground};
use std::alloc::Global;

/// Finds the highest kernel whose instance holds.
///
/// Contracts see it as the problem, the table, the binding, the room and the instance.
#[derive(Drop)]
pub struct Matcher<'a> {
    problem: &'a Problem,
    table: &'a Table,
    bound: Sequence<(u32, u32)>,
    /// How many atoms a model may have.
    room: usize,
    /// The atoms of the last sensing.
    sensed: Model,
    /// For each mark those of them that it may become.
    lists: Vec<Model>,
    hints: Vec<Hints>,
    cells: Vec<bool>,
    work: Vec<u32>,
    instance: Vec<u32>,
    /// With the objects of `instance` the kernels from this one on are proper.
    proper_from: u32,
    /// Whether there is an instance yet.
    is_found: bool,
}

impl<'a> std::marker::Model for Matcher<'a> {
    ghost use Rattle.std.specs.Prelude.{◌≡◌, [], cond, length};
    ghost use Rattle.px_terms.specs.Validity.{IsValid};
    ghost use Rattle.px_table.specs.Tables.{IsTable};
    ghost use Rattle.px_match.specs.Asking.{AreProperFrom};
    ghost use Rattle.px_match.specs.Keeping.{AreKept};
    ghost use Rattle.px_match.specs.MatcherValue.{MatcherValue};
    ghost use Rattle.std.specs.Coded.{codes};
    ghost use Rattle.px_proof.specs.contracts.proof.Proof as term;

    ghost Value = { MatcherValue };

    ghost coded = { Prim.hlevel (codes, term.the_row.coded) };

    ghost view = { λ m. record {
      problem = m.problem.now;
      table = m.table.now;
      bound = m.bound;
      room = m.room;
      instance =
          cond m.is_found m.instance.items [];
    } };

    ghost invariant = { λ m. IsValid m.problem.now × IsTable m.problem.now m.table.now × (length m.work.items ≡ m.table.now.params)
        × (length m.instance.items ≡ m.table.now.params) × AreKept m.room m.table.now.marks m.sensed m.lists.items
        × AreProperFrom m.problem.now m.table.now m.instance.items m.proper_from };
}

/// Returns the first bound parameter that the table does not have.
fn first_bad(table: &Table, bind: &[(u32, u32)]) -> Option<u32>
    ensures { result ≡ spec_first_bad table.now bind.now }
{
    for pair in bind {
        if pair.0 < 1 || pair.0 > table.params {
            return Some(pair.0);
        }
    }
    None
}

/// Returns a model of no atoms, with room for `room` of them.
fn model_with_room(alloc: Global, room: usize) -> Result<Model, NoMemory>
    ensures empty { IfOk result (λ model. model.atoms ≡ []) }
    ensures room { IfOk result (λ model. room ≤ model.spare) }
{
    let mut model = Model::new(alloc);
    model.reserve(room)?;
    Ok(model)
}

/// Returns a list of no atoms for the mark, with room for what it becomes: for `room` atoms, or for one if it has no parameters.
fn list_of(alloc: Global, mark: &Atom, room: usize) -> Result<Model, NoMemory>
    ensures empty { IfOk result (λ list. list.atoms ≡ []) }
    ensures places { IfOk result (λ list. HasPlaces room mark.now list) }
{
    if is_ground(mark) {
        return model_with_room(alloc, 1);
    }
    model_with_room(alloc, room)
}

/// Returns for each mark a list of no atoms, with room for what it becomes.
#[tactic(auto, using(crate::proofs::Renewed::none_empty, crate::proofs::Renewed::one_more_empty))]
fn lists_of(alloc: Global, marks: &[Mark], room: usize) -> Result<Vec<Model>, NoMemory>
    ensures { IfOk result (λ lists. AreEmpty room marks.now (length marks.now) lists.items) }
{
    let mut lists = Vec::new(alloc);
    for mark in marks {
        lists.push(list_of(alloc, &mark.atom, room)?)?;
    }
    Ok(lists)
}

impl<'a> Matcher<'a> {
    /// Returns a matcher for the table in which these parameters, counted from 1, have these objects. Takes all memory that it needs.
    ///
    /// # Errors
    /// `BadParam` with the first parameter that the table does not have, and `NoMemory`.
    // Alike: `Planex::begin` of px_planex, which hands a binding to this call and so has its clauses on it.
    #[tactic(auto, using(crate::proofs::Renewed::kept_empty))]
    pub fn reserve(
        alloc: Global,
        problem: &'a Problem,
        table: &'a Table,
        bind: &[(u32, u32)],
        room: usize,
    ) -> Result<Matcher<'a>, MatchErr>
        requires problem { IsValid problem.now }
        requires table { IsTable problem.now table.now }
        requires objects { All (λ pair. pair.1 < problem.now.objects) bind.now }
        requires once { AllPairs (λ one other. one.0 ≢ other.0) bind.now }
        ensures value { IfOk result (λ matcher. matcher ≡ record
            { problem = problem.now; table = table.now; bound = bind.now; room = room; instance = [] }) }
        ensures in_range { OnOk result (spec_first_bad table.now bind.now ≡ None) }
        ensures bad { (n : ℕ) → IsErrOf result (MatchErr.BadParam n) → spec_first_bad table.now bind.now ≡ Some n }
        ensures always_bad { (n : ℕ) → spec_first_bad table.now bind.now ≡ Some n → IsErrOf result (MatchErr.BadParam n)
            ⊎ IsErrOf result MatchErr.NoMemory }
    {
        if let Some(number) = first_bad(table, bind) {
            return Err(MatchErr::BadParam(number));
        }
        let params = table.params as usize;
        let mut bound = Vec::new(alloc);
        bound.extend_from_slice(bind)?;
        let sensed = model_with_room(alloc, room)?;
        let lists = lists_of(alloc, table.marks.as_slice(), room)?;
        let hints = hints_of(alloc, problem, table)?;
        let cells = vec![in alloc; false; params * params]?;
        let work = vec![in alloc; 0u32; params]?;
        let instance = vec![in alloc; 0u32; params]?;
        let proper_from = goal_number(problem, table, &instance);
        Ok(Matcher {
            problem,
            table,
            bound: Sequence::from_vec(bound),
            room,
            sensed,
            lists,
            hints,
            cells,
            work,
            instance,
            proper_from,
            is_found: false,
        })
    }

    /// Returns the highest kernel of which an instance that extends the binding, is proper and has objects that fit the table's parameters
    /// holds in the model; `None` exactly where there is no such kernel. Does not allocate.
    pub fn best(&mut self, model: &Model) -> Option<u32>
        requires room { length model.now.atoms ≤ self.old.room }
        ensures none { (result ≡ None) ↔ NoKernelFits self.old.problem self.old.table self.old.bound model.now.atoms }
        ensures kept { result ≡ None → self.new.instance ≡ self.old.instance }
        ensures some { IfSome result (λ number. IsHighest self.old.problem self.old.table self.old.bound model.now.atoms
            (kernel_with self.new.instance number)) }
        ensures always { (kernel : KernelInstance) → IsHighest self.old.problem self.old.table self.old.bound model.now.atoms kernel
            → (result ≡ Some kernel.number) × (self.new.instance ≡ kernel.objects) }
        ensures frame { self.new ≡ record self.old { instance = self.new.instance } }
    {
        let marks = self.table.marks.as_slice();
        renew(&mut self.sensed, &mut self.lists, marks, model);
        let found = highest(
            self.problem,
            self.table,
            self.bound.as_slice(),
            &self.lists,
            &self.hints,
            &self.instance,
            self.proper_from,
            &mut self.cells,
            &mut self.work,
            model,
        );
        match found {
            None => None,
            Some(number) => {
                self.proper_from = keep_found(
                    self.problem,
                    self.table,
                    &mut self.instance,
                    self.proper_from,
                    &self.work,
                    number,
                );
                self.is_found = true;
                Some(number)
            }
        }
    }

    /// Returns the first objects with which the kernel of the last `best` that found one fits; no objects before. Does not allocate.
    pub fn instance(&self) -> &[u32]
        ensures { result.now ≡ self.now.instance }
    {
        if self.is_found {
            return &self.instance;
        }
        &self.instance[..0]
    }
}
