//! The state: open goals, and the choices that closed others.
use crate::apart::are_literals_apart;
use crate::matching::matches;
use crate::parts::{open_formula, push_parts, variables_after};
use crate::stepping::matches_fresh;
use px_proof::{Tick, apply_literal};
use px_terms::{Atom, Lit, NoMemory};
use px_unify::{Bind, BindErr, MOST_VARIABLES, TrailMark};
use std::alloc::Global;
use std::marker::Model;

/// A literal to be proved. Place 0 of the arena is nothing, and the goal at index `i` has place `i + 1`.
#[derive(Clone, Copy)]
pub struct OpenGoal {
    pub lit: Lit,
    /// The place of the goal whose step it is a part of.
    pub above: usize,
    /// The place of the goal that is open after it.
    pub next: usize,
    /// The greatest height that its proof may have.
    pub budget: u32,
}

/// A place that is closed, and what was there before.
#[derive(Clone, Copy)]
pub struct Choice {
    pub tick: Tick,
    pub mark: TrailMark,
    pub goals: usize,
    pub first: usize,
}

/// The state between attempts: what is open, what is closed, and what that binds.
#[derive(Drop)]
pub struct ProofState {
    bind: Bind,
    goals: Vec<OpenGoal>,
    first: usize,
    choices: Vec<Choice>,
}

impl Model for ProofState {
    ghost use Rattle.std.specs.Prelude.{reverse};
    ghost use Rattle.px_proof_state.specs.States.{ProofStateValue};

    ghost Value = { ProofStateValue };

    ghost view = { λ s. record { changes = s.bind; goals = s.goals.items; first = s.first; choices = reverse s.choices.items } };
}

impl ProofState {
    ghost use Rattle.std.specs.Prelude.{◌≡◌, ◌∷◌, ◌-◌, slice_get, Some, ◌+◌, ◌<◌, ◌≤◌, [], ◌↔◌, List, IsTrue, IfSome, IfNone, IfOk, All, length, reverse, MatchOption};
    ghost use Rattle.px_terms.specs.Language.{IsPlainBelow};
    ghost use Rattle.px_terms.specs.Clauses.{ArePlainBelow};
    ghost use Rattle.px_terms.specs.Limits.{most_formula_variables};
    ghost use Rattle.px_unify.specs.Changes.{variables_of, HasSolutions};
    ghost use Rattle.px_proof_state.specs.Matches.{ClosesBy};
    ghost use Rattle.px_proof_state.specs.Parts.{IsLitBelow};
    ghost use Rattle.px_proof_state.specs.Steps.{ClosesByStep};
    ghost use Rattle.px_proof_state.specs.declared.open.Choice.{Choice};
    ghost use Rattle.px_proof_state.specs.States.{CanRetract, retracted, IsOpening};

    /// Returns the state in which nothing is closed, and one place for each atom of the formula is open.
    ///
    /// # Errors
    /// `NoMemory` if memory for the places or the variables runs out.
    pub fn new(
        alloc: Global,
        formula: &[Atom],
        variable_count: u32,
        height: u32,
    ) -> Result<ProofState, NoMemory>
        requires { variable_count ≤ MOST_VARIABLES }
        ensures { IfOk result (λ state. IsOpening formula.now variable_count height state) }
    {
        let mut bind = Bind::new(alloc);
        match bind.fresh(variable_count) {
            Ok(_) => {}
            Err(BindErr::Full) => unreachable!(),
            Err(BindErr::NoMemory) => return Err(NoMemory),
        }
        let mut goals = Vec::new(alloc);
        let first = open_formula(&mut goals, formula, height)?;
        Ok(ProofState {
            bind,
            goals,
            first,
            choices: Vec::new(alloc),
        })
    }

    /// Returns the variables and their bindings.
    pub fn bind(&self) -> &Bind
        ensures { result.now ≡ self.now.changes }
    {
        &self.bind
    }

    /// Returns the allocator of the state.
    pub fn allocator(&self) -> &Global {
        self.choices.allocator()
    }

    /// Returns how the places were closed, from the first on.
    pub fn choices(&self) -> &[Choice]
        ensures { reverse result.now ≡ self.now.choices }
    {
        &self.choices
    }

    /// Returns the place of the first open goal, or 0.
    pub fn first(&self) -> usize
        ensures { result ≡ self.now.first }
    {
        self.first
    }

    /// Returns the goal at a place of the arena.
    pub fn goal_at(&self, place: usize) -> OpenGoal
        requires some { 0 < place }
        requires within { place ≤ length self.now.goals }
        ensures { slice_get self.now.goals (place - 1) ≡ Some result }
    {
        self.goals[place - 1]
    }

    /// Closes the first goal by a literal that leaves no parts, if it can be made equal to it. Returns whether it can.
    pub(crate) fn close_by(
        &mut self,
        tick: Tick,
        goal: &Lit,
        next: usize,
        lit: &Lit,
    ) -> Result<bool, NoMemory>
        requires goal_below { IsLitBelow (variables_of self.old.changes) goal.now }
        requires lit_below { IsLitBelow (variables_of self.old.changes) lit.now }
        ensures { IfOk result (λ found. ClosesBy self.old self.new tick goal.now lit.now next found) }
    {
        let mark = self.bind.mark();
        if !matches(&mut self.bind, goal, lit) {
            return Ok(false);
        }
        let choice = Choice {
            tick,
            mark,
            goals: self.goals.len(),
            first: self.first,
        };
        match self.choices.push(choice) {
            Ok(()) => {
                self.first = next;
                Ok(true)
            }
            Err(_) => Err(NoMemory),
        }
    }

    /// Closes the first goal by the literal of a clause at a place, if it can be made equal to it, and opens the other literals'
    /// complements.
    /// Returns whether it can.
    pub(crate) fn close_by_step(
        &mut self,
        tick: Tick,
        goal: &OpenGoal,
        variable_count: u32,
        lits: &[Lit],
        place: usize,
    ) -> Result<bool, NoMemory>
        requires place { place < length lits.now }
        requires few { variable_count ≤ most_formula_variables }
        requires small { variables_of self.old.changes + variable_count ≤ MOST_VARIABLES }
        requires goal_below { IsLitBelow (variables_of self.old.changes) goal.now.lit }
        requires lits_below { ArePlainBelow variable_count lits.now }
        requires next_older { goal.now.next ≤ length self.old.goals }
        requires first_older { self.old.first ≤ length self.old.goals }
        ensures { IfOk result (λ found. ClosesByStep self.old self.new tick goal.now (record { variable_count = variable_count; lits = lits.now }) place
            found) }
    {
        if are_literals_apart(&goal.lit, &lits[place]) {
            return Ok(false);
        }
        let mark = self.bind.mark();
        let terms = variables_after(self.bind.variables(), variable_count);
        let theta = &terms[..variable_count as usize];
        let lit = apply_literal(theta, &lits[place]);
        match matches_fresh(&mut self.bind, variable_count, &goal.lit, &lit) {
            Ok(true) => {}
            Ok(false) => return Ok(false),
            Err(NoMemory) => return Err(NoMemory),
        }
        let choice = Choice {
            tick,
            mark,
            goals: self.goals.len(),
            first: self.first,
        };
        match push_parts(&mut self.goals, lits, theta, place, self.first, goal) {
            Ok(first) => self.first = first,
            Err(NoMemory) => return Err(NoMemory),
        }
        match self.choices.push(choice) {
            Ok(()) => {}
            Err(_) => return Err(NoMemory),
        }
        Ok(true)
    }

    /// Opens again the place that was closed last, and returns its tick.
    pub fn retract_last(&mut self) -> Option<Tick>
        requires { CanRetract self.old }
        ensures last { IfSome result (λ tick. (choice : Choice) × (rest : List Choice) × (self.old.choices ≡ choice ∷ rest)
            × (choice.tick ≡ tick) × (self.new ≡ retracted self.old choice rest)) }
        ensures none { IfNone result ((self.old.choices ≡ []) × (self.new ≡ self.old)) }
    {
        match self.choices.pop() {
            None => None,
            Some(choice) => {
                self.bind.undo_to(choice.mark);
                self.goals.truncate(choice.goals);
                self.first = choice.first;
                Some(choice.tick)
            }
        }
    }
}
